//! The search through the entries, depth first, by the links that they record.

ghost use Rattle.std.specs.Prelude.{◌≡◌, ◌<◌, ◌≤◌, ◌+◌, ◌++◌, ◌∷◌, [], length, map, reverse, false, OnOk, IfOk};
ghost use Rattle.std.specs.Option.{option_map};
ghost use Rattle.std.specs.Vec.{vec_len, vec_capacity};
ghost use Rattle.qe_board.specs.Shown.{link_of};
ghost use Rattle.qe_board.specs.Recorded.{is_met, spot_at, spots, leaf_spots, failed_spot, LinksFall};
ghost use Rattle.qe_board.specs.Visited.{spot_of, standing, spots_below, upcoming, IsAhead};

use crate::entries::{Entries, Link};
use indexmap::IndexSet;
use qe_piece::{OutOfMemory, Piece};
use std::alloc::Global;
use std::marker::Model;

/// The numbers of the points on the way from the root to a piece. Contracts see the list of them.
#[derive(Drop)]
pub struct Path {
    points: Vec<u64>,
}

impl Model for Path {
    ghost use Rattle.std.specs.Prelude.{ℕ, List};

    ghost Value = { List ℕ };

    ghost view = { λ p. p.points.items };
}

impl Path {
    /// No points: the path to the root.
    pub(crate) fn new(alloc: Global) -> Path
        ensures { result ≡ [] }
    {
        Path {
            points: Vec::new(alloc),
        }
    }

    /// The numbers of the points, from the root on.
    pub fn points(&self) -> &[u64]
        ensures { result.now ≡ self.now }
    {
        self.points.as_slice()
    }

    /// This path, and one point more.
    fn then(&self, alloc: Global, point: u64) -> Result<Path, OutOfMemory>
        ensures { IfOk result (λ p. p ≡ self.now ++ point ∷ []) }
    {
        let mut points = Vec::with_capacity(alloc, self.points.len() + 1)?;
        points.extend_from_slice(self.points.as_slice())?;
        points.push(point)?;
        Ok(Path { points })
    }
}

/// An entry, and a path to its piece.
#[derive(Drop)]
pub struct Place {
    /// The number of the entry.
    pub entry: u32,
    /// The path to its piece.
    pub path: Path,
}

/// First places, in depth-first order.
#[derive(Drop)]
pub struct Found {
    /// Where the leaves stand.
    pub leaves: Vec<Place>,
    /// Where the first piece stands that failed.
    pub failed: Option<Place>,
}

/// What is still to be visited: by a link of the visit with this number.
#[derive(Clone, Copy, Debug, PartialEq, Eq)]
pub struct Upcoming {
    pub from: usize,
    pub link: Link,
}

/// What comes next.
#[derive(Drop)]
pub enum Ahead {
    /// Nothing is left.
    End,
    /// An entry that was visited.
    Met,
    /// A new one.
    New(Place),
}

/// The first visit of each entry, in order, the entries that were visited, and what is still to be visited, last first. A path is made
/// once an entry is visited, and not for each link.
#[derive(Drop)]
pub struct Visits {
    done: Vec<Place>,
    met: IndexSet<u32>,
    todo: Vec<Upcoming>,
}

impl Model for Visits {
    ghost use Rattle.std.specs.Prelude.{◌≡◌, map, length, reverse, nat_eq};
    ghost use Rattle.indexmap.specs.IndexSet.{IsUnique};
    ghost use Rattle.qe_board.specs.Visited.{Progression, spot_of, spots_ahead, standing, AreBehind};

    ghost Value = { Progression };

    ghost view = { λ v. record { done = map spot_of v.done.items; todo = spots_ahead (map spot_of v.done.items) (reverse v.todo.items) } };

    ghost invariant = { λ v. IsUnique nat_eq v.met × (v.met.keys ≡ standing (map spot_of v.done.items)) × AreBehind (length v.done.items) (reverse v.todo.items) };
}

/// Puts links of a visit before what is still to be visited.
fn look_ahead(todo: &mut Vec<Upcoming>, from: usize, links: &[Link])
    requires { vec_len todo.old + length links.now ≤ vec_capacity todo.old }
    ensures { todo.new.items ≡ todo.old.items ++ reverse (map (upcoming from) links.now) }
{
    for link in links.iter().rev() {
        todo.push_reserved(Upcoming { from, link: *link });
    }
}

impl Visits {
    /// No visits.
    pub fn new(alloc: Global) -> Visits
        ensures { result ≡ record { done = []; todo = [] } }
    {
        Visits {
            done: Vec::new(alloc),
            met: IndexSet::new(alloc),
            todo: Vec::new(alloc),
        }
    }

    /// Visits a new entry, which has these links.
    pub fn visit(&mut self, alloc: Global, links: &[Link], place: Place) -> Result<(), OutOfMemory>
        requires new { is_met place.entry (standing self.old.done) ≡ false }
        ensures { OnOk result (self.new ≡ record {
          done = self.old.done ++ spot_of place ∷ [];
          todo = spots_below place.path (map link_of links.now) ++ self.old.todo;
        }) }
    {
        self.done.reserve(1)?;
        self.todo.reserve(links.len())?;
        match self.met.insert(place.entry) {
            Ok(_) => {
                look_ahead(&mut self.todo, self.done.len(), links);
                self.done.push_reserved(place);
                Ok(())
            }
            Err(_) => Err(OutOfMemory),
        }
    }

    /// What comes next.
    pub fn next(&mut self, alloc: Global) -> Result<Ahead, OutOfMemory>
        ensures { IfOk result (IsAhead self.old self.new) }
    {
        let Some(next) = self.todo.pop() else {
            return Ok(Ahead::End);
        };
        if self.met.contains(&next.link.entry) {
            return Ok(Ahead::Met);
        }
        let path = self.done[next.from].path.then(alloc, next.link.point)?;
        Ok(Ahead::New(Place {
            entry: next.link.entry,
            path,
        }))
    }

    /// The first visits.
    pub fn into_done(self) -> Vec<Place>
        ensures { map spot_of result.items ≡ self.done }
    {
        let Visits { done, .. } = self;
        done
    }
}

/// The first places of all entries that can be reached from the first one by links, in depth-first order.
pub fn first_places<N: Piece>(
    alloc: Global,
    entries: &Entries<N>,
) -> Result<Vec<Place>, OutOfMemory>
    requires some { 0 < length entries.now }
    requires links { LinksFall N.height entries.now }
    ensures { IfOk result (λ places. map spot_of places.items ≡ spots N.height entries.now) }
{
    let mut visits = Visits::new(alloc);
    visits.visit(
        alloc,
        entries.links(0),
        Place {
            entry: 0,
            path: Path::new(alloc),
        },
    )?;
    loop {
        match visits.next(alloc)? {
            Ahead::End => return Ok(visits.into_done()),
            Ahead::Met => {}
            Ahead::New(place) => {
                let links = entries.links(place.entry as usize);
                visits.visit(alloc, links, place)?;
            }
        }
    }
}

/// The first places of leaves, and of the first entry that failed.
pub fn find<N: Piece>(alloc: Global, entries: &Entries<N>) -> Result<Found, OutOfMemory>
    requires some { 0 < length entries.now }
    requires links { LinksFall N.height entries.now }
    ensures leaves { IfOk result (λ f. map spot_of f.leaves.items ≡ leaf_spots entries.now (spots N.height entries.now)) }
    ensures failed { IfOk result (λ f. option_map spot_of f.failed ≡ failed_spot entries.now (spots N.height entries.now)) }
{
    let mut leaves = Vec::new(alloc);
    let mut failed = None;
    for place in first_places(alloc, entries)? {
        if entries.is_leaf(place.entry as usize) {
            leaves.push(place)?;
        } else if failed.is_none() && entries.has_failed(place.entry as usize) {
            failed = Some(place);
        }
    }
    Ok(Found { leaves, failed })
}

/// The first path to an entry; none, where it cannot be reached.
pub fn find_path<N: Piece>(
    alloc: Global,
    entries: &Entries<N>,
    entry: u32,
) -> Result<Option<Path>, OutOfMemory>
    requires some { 0 < length entries.now }
    requires links { LinksFall N.height entries.now }
    ensures { IfOk result (λ path. path ≡ option_map (λ s. s.path) (spot_at entry (spots N.height entries.now))) }
{
    for place in first_places(alloc, entries)? {
        if place.entry == entry {
            return Ok(Some(place.path));
        }
    }
    Ok(None)
}
