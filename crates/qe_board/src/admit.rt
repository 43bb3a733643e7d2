//! The successors of an entry become entries.
//!
//! Memory may run out on the way, and then the successors are to be as they were. So there are two steps: the first enters a copy
//! of each new piece, and may fail; the second moves the piece itself to where it is kept to be handed out, and cannot.

ghost use Rattle.std.specs.Prelude.{◌≡◌, ◌<◌, ◌≤◌, length, map};
ghost use Rattle.qe_piece.specs.Meaning.{child_of};
ghost use Rattle.qe_board.specs.State.{keys};
ghost use Rattle.qe_board.specs.Machine.{links as links_to};
ghost use Rattle.qe_board.specs.Admission.{links_of, first_of, entered, settled, IsNumbered, IsEntered, IsAdmitted};

use crate::entries::{Link, Progress};
use crate::roll::{Roll, opening};
use qe_piece::{Next, OutOfMemory, Piece};
use std::alloc::Global;

/// How the successors of an entry were admitted.
#[derive(Drop)]
pub enum Admitted<N> {
    /// They are entries, and the entry that they come from is expanded.
    Entered,
    /// With them there would be more entries than the limit. Nothing changed.
    TooMany,
    /// Memory ran out. Nothing changed, and the successors are handed back.
    OutOfMemory(Vec<Next<N>>),
}

impl<N: Piece> Roll<N> {
    /// The successors of an entry become entries where they are none so far, and the entry is expanded: it has a link to the
    /// entry of each, in order. The limit is the greatest number of entries.
    pub fn admit(
        &mut self,
        alloc: Global,
        entry: usize,
        successors: Vec<Next<N>>,
        limit: u32,
    ) -> Admitted<N>
        requires within { entry < length self.old.entries }
        requires few { length self.old.entries ≤ limit }
        ensures { IsAdmitted N.key N.meaning N.leaf N.truth limit entry successors.items self.old self.new result }
    {
        let len = self.len();
        match self.enter(alloc, &successors, limit) {
            Ok(Some(links)) => {
                self.settle(len, successors, &links);
                self.set(entry, Progress::Expanded(links));
                Admitted::Entered
            }
            Ok(None) => {
                self.truncate(len);
                Admitted::TooMany
            }
            Err(_) => {
                self.truncate(len);
                Admitted::OutOfMemory(successors)
            }
        }
    }

    // The number of the entry with this piece. One that is none so far becomes one by a copy, a leaf for now, unless there would be
    // more entries than the limit.
    fn number(&mut self, alloc: Global, piece: &N, limit: u32) -> Result<Option<u32>, OutOfMemory>
        requires few { length self.old.entries ≤ limit }
        ensures { IsNumbered limit (N.key piece.now) self.old self.new result }
    {
        if let Some(entry) = self.find(piece) {
            return Ok(Some(entry as u32));
        }
        let entry = self.len() as u32;
        if entry == limit {
            return Ok(None);
        }
        self.append(piece.copy(alloc)?, Progress::Leaf)?;
        Ok(Some(entry))
    }

    // The first step: each successor that is no entry becomes one. Gives the links to the entries of all; none, if there would be
    // more entries than the limit.
    fn enter(
        &mut self,
        alloc: Global,
        successors: &[Next<N>],
        limit: u32,
    ) -> Result<Option<Vec<Link>>, OutOfMemory>
        requires few { length self.old.entries ≤ limit }
        ensures { IsEntered limit (map (child_of N.key) successors.now) self.old self.new result (λ list. list.items) }
    {
        let mut links = Vec::with_capacity(alloc, successors.len())?;
        for next in successors {
            let Some(entry) = self.number(alloc, &next.piece, limit)? else {
                return Ok(None);
            };
            links.push_reserved(Link {
                point: next.point,
                entry,
            });
        }
        Ok(Some(links))
    }

    // The second step: what has become of each new entry is as it opens. The successors from which they came are kept there.
    fn settle(&mut self, first: usize, successors: Vec<Next<N>>, links: &[Link])
        requires within { first ≤ length self.old.entries }
        requires entered { self.old ≡ entered (map (child_of N.key) successors.items) (first_of first self.old) }
        requires links { links_of links.now ≡ links_to (map (child_of N.key) successors.items) (keys self.old) }
        ensures { self.new ≡ settled N.leaf (map (child_of N.key) successors.items) (first_of first self.old) }
    {
        let mut upcoming = first;
        for (next, link) in successors.into_iter().zip(links) {
            if link.entry as usize == upcoming {
                self.set(upcoming, opening(next.piece));
                upcoming += 1;
            }
        }
    }
}
