//! The container: entries and the journal of the events that made them what they are.

ghost use Rattle.std.specs.Prelude.{◌≡◌, ◌<◌, ◌↔◌, IsSome, ◌≤◌, ◌+◌, ◌*◌, min, ◌&&◌, [], ◌∷◌, if◌then◌else◌, not, map, length, slice_get, true, false, IfOk};
ghost use Rattle.qe_piece.specs.Meaning.{child_of, gives, fails};
ghost use Rattle.qe_board.specs.declared.event.Event.TheVariants.{Cancel, Drop, Starve};
ghost use Rattle.qe_board.specs.declared.event.Stopping.TheVariants.{Unset};
ghost use Rattle.qe_board.specs.Recorded.{spots, spot_at, leaf_spots, failed_spot};
ghost use Rattle.qe_board.specs.Visited.{spot_of};
ghost use Rattle.std.specs.Option.{option_map, option_copied};
ghost use Rattle.qe_board.specs.Verdict.{fault_in};
ghost use Rattle.qe_board.specs.Shown.{conditions};
ghost use Rattle.qe_board.specs.State.{keys, count, is_waiting, is_held, is_unset, is_done, has_true_leaf};
ghost use Rattle.qe_board.specs.Counted.{first_true};
ghost use Rattle.qe_board.specs.History.{grown, to_come, state_of, IsLawful};
ghost use Rattle.qe_board.specs.Calls.{IsHeldIn, is_over, IsTook, IsGave, IsFilled, PassesLimit, failing_event};

use crate::admit::Admitted;
use crate::entries::Progress;
use crate::event::{Event, Stopping};
use crate::held::{Counts, Gave, Held, Took};
use crate::roll::Roll;
use crate::visits::{Found, Path, find, find_path};
use qe_piece::{Next, OutOfMemory, Piece};
use std::alloc::Global;
use std::marker::Model;

/// A container of distinct pieces. Contracts see its history: the root, the limit and the journal; its state is what the
/// journal leaves.
#[derive(Drop)]
pub struct Board<N: Piece> {
    roll: Roll<N>,
    limit: u32,
    journal: Vec<Event>,
}

impl<N: Piece> Model for Board<N> {
    ghost use Rattle.std.specs.Vec.{vec_capacity};
    ghost use Rattle.qe_board.specs.History.{History, first_key, IsKept};

    ghost Value = { History };

    ghost view = { λ b. record { root = first_key b.roll.entries; limit = b.limit; journal = b.journal.items } };

    ghost invariant = { λ b. IsKept N.meaning N.leaf N.truth
        (record { root = first_key b.roll.entries; limit = b.limit; journal = b.journal.items })
        b.roll (vec_capacity b.journal) };
}

impl<N: Piece> Board<N> {
    /// A container of the root alone. There are to be at most `limit` entries.
    pub fn open(alloc: Global, root: N, limit: u32) -> Result<Board<N>, OutOfMemory>
        requires { 1 ≤ limit }
        ensures { IfOk result (λ b. b ≡ record { root = N.key root; limit = limit; journal = [] }) }
    {
        let mut journal = Vec::new(alloc);
        journal.reserve(4)?;
        let roll = Roll::open(alloc, root)?;
        Ok(Board {
            roll,
            limit,
            journal,
        })
    }

    /// Whether nothing waits and nothing is held.
    pub fn is_done(&self) -> bool
        ensures done { result ≡ is_done (state_of N.meaning N.leaf N.truth self.now) }
        ensures lawful { IsLawful N.meaning N.leaf N.truth self.now }
    {
        self.roll.waiting() == 0 && self.roll.held() == 0
    }

    /// Why nothing is handed out any more.
    pub fn stopping(&self) -> Stopping
        ensures { result ≡ (state_of N.meaning N.leaf N.truth self.now).stop }
    {
        self.roll.stopping()
    }

    /// The first entry that is a true leaf.
    pub fn true_leaf(&self) -> Option<u32>
        ensures { result ≡ first_true N.truth (keys (state_of N.meaning N.leaf N.truth self.now)) }
    {
        match self.roll.true_leaf() {
            Some(entry) => Some(entry as u32),
            None => None,
        }
    }

    /// The piece of an entry; `None` exactly where there is no such entry.
    pub fn piece(&self, entry: u32) -> Option<&N>
        ensures { option_map N.key (option_copied result)
            ≡ slice_get (keys (state_of N.meaning N.leaf N.truth self.now)) entry }
    {
        self.roll.piece(entry as usize)
    }

    /// Why an entry failed; `None` exactly where it did not.
    pub fn fault(&self, entry: u32) -> Option<&N::Fault>
        ensures { option_copied result
            ≡ fault_in (slice_get (conditions (state_of N.meaning N.leaf N.truth self.now).entries) entry) }
    {
        self.roll.fault(entry as usize)
    }

    /// Whether a leaf is true.
    pub(crate) fn has_true_leaf(&self) -> bool
        ensures { result ≡ has_true_leaf N.truth (state_of N.meaning N.leaf N.truth self.now) }
    {
        self.roll.has_true_leaf()
    }

    /// Where nothing is left to do and no stop is set: the first places of the leaves, in depth-first order, and of all entries that
    /// failed the first in that order.
    pub fn first_leaves(&self, alloc: Global) -> Result<Found, OutOfMemory>
        requires done { is_done (state_of N.meaning N.leaf N.truth self.now) ≡ true }
        requires unset { (state_of N.meaning N.leaf N.truth self.now).stop ≡ Unset }
        ensures leaves { IfOk result (λ f. map spot_of f.leaves.items
            ≡ leaf_spots (state_of N.meaning N.leaf N.truth self.now).entries
            (spots N.height (state_of N.meaning N.leaf N.truth self.now).entries)) }
        ensures failed { IfOk result (λ f. option_map spot_of f.failed
            ≡ failed_spot (state_of N.meaning N.leaf N.truth self.now).entries
            (spots N.height (state_of N.meaning N.leaf N.truth self.now).entries)) }
    {
        find(alloc, self.roll.entries())
    }

    /// The first path to an entry in depth-first order, by the successors that are recorded; `None` exactly where there is no such
    /// entry.
    pub fn path_to(&self, alloc: Global, entry: u32) -> Result<Option<Path>, OutOfMemory>
        ensures path { IfOk result (λ path. path ≡ option_map (λ s. s.path)
            (spot_at entry (spots N.height (state_of N.meaning N.leaf N.truth self.now).entries))) }
        ensures there { IfOk result (λ path. IsSome path
            ↔ (entry < length (state_of N.meaning N.leaf N.truth self.now).entries)) }
    {
        find_path(alloc, self.roll.entries(), entry)
    }

    // whether nothing is handed out any more
    fn is_over(&self) -> bool
        ensures { result ≡ is_over N.truth (state_of N.meaning N.leaf N.truth self.now) }
    {
        self.roll.has_true_leaf() || !self.roll.is_unset()
    }

    /// Hands out the first entry that waits to this worker.
    pub fn take(&mut self, worker: u32) -> Took<N>
        ensures { IsTook N.meaning N.leaf N.truth self.old worker result self.new }
    {
        if self.is_done() {
            return Took::Done;
        }
        if self.is_over() {
            return Took::Stopped;
        }
        let Some(entry) = self.roll.first_waiting() else {
            return Took::Empty;
        };
        let Progress::Waiting(piece) = self.roll.set(entry, Progress::Held(worker)) else {
            unreachable!()
        };
        let entry = entry as u32;
        self.journal.push_reserved(Event::Take { worker, entry });
        Took::Piece(Held {
            worker,
            entry,
            piece,
        })
    }

    /// How many entries there are, how many wait and how many are held.
    pub fn counts(&self) -> Counts
        ensures entries { result.entries ≡ length (state_of N.meaning N.leaf N.truth self.now).entries }
        ensures waiting { result.waiting ≡ count is_waiting (state_of N.meaning N.leaf N.truth self.now).entries }
        ensures held { result.held ≡ count is_held (state_of N.meaning N.leaf N.truth self.now).entries }
        ensures limit { result.entries ≤ self.now.limit }
    {
        Counts {
            entries: self.roll.len() as u32,
            waiting: self.roll.waiting() as u32,
            held: self.roll.held() as u32,
        }
    }

    /// Drops an entry that is held, where a stop is set.
    pub fn drop_held(&mut self, held: Held<N>)
        requires held { IsHeldIn (state_of N.meaning N.leaf N.truth self.old) held }
        requires stopped { is_unset (state_of N.meaning N.leaf N.truth self.old).stop ≡ false }
        ensures { self.new ≡ grown self.old (Drop held.worker held.entry ∷ []) }
    {
        let Held { worker, entry, .. } = held;
        drop(self.roll.set(entry as usize, Progress::Dropped));
        self.journal.push_reserved(Event::Drop { worker, entry });
    }

    /// The piece of an entry that is held fails. Where a stop is set the entry is dropped instead.
    pub fn fail(&mut self, held: Held<N>, fault: N::Fault)
        requires held { IsHeldIn (state_of N.meaning N.leaf N.truth self.old) held }
        requires meaning { N.meaning held.key ≡ fails fault }
        ensures { self.new ≡ grown self.old (failing_event (is_unset (state_of N.meaning N.leaf N.truth self.old).stop) held ∷ []) }
    {
        if !self.roll.is_unset() {
            self.drop_held(held);
            return;
        }
        let Held { worker, entry, .. } = held;
        drop(self.roll.set(entry as usize, Progress::Failed(fault)));
        self.journal.push_reserved(Event::Fail { worker, entry });
    }

    /// Stops, where a leaf is true and no stop was set: what waits is dropped. Tells whether it did; otherwise nothing changes.
    pub fn cancel(&mut self, worker: u32) -> bool
        ensures cancels { result ≡ (has_true_leaf N.truth (state_of N.meaning N.leaf N.truth self.old)
            && is_unset (state_of N.meaning N.leaf N.truth self.old).stop) }
        ensures event { self.new ≡ (if result then grown self.old (Cancel worker ∷ []) else self.old) }
    {
        if !self.roll.has_true_leaf() || !self.roll.is_unset() {
            return false;
        }
        self.roll.stop(Stopping::Truth);
        self.journal.push_reserved(Event::Cancel { worker });
        true
    }

    /// Stops for want of memory, where no leaf is true and no stop was set: what waits is dropped. Tells whether it did; otherwise
    /// nothing changes.
    pub fn starve(&mut self, worker: u32) -> bool
        ensures starves { result ≡ (not (has_true_leaf N.truth (state_of N.meaning N.leaf N.truth self.old))
            && is_unset (state_of N.meaning N.leaf N.truth self.old).stop) }
        ensures event { self.new ≡ (if result then grown self.old (Starve worker ∷ []) else self.old) }
    {
        if self.is_over() {
            return false;
        }
        self.roll.stop(Stopping::Memory);
        self.journal.push_reserved(Event::Starve { worker });
        true
    }

    // The room that the journal needs once there are so many more entries, or as many as the limit lets in.
    fn room_with(&self, more: usize) -> usize
        ensures { to_come (state_of N.meaning N.leaf N.truth self.now) + 2 * min more self.now.limit ≤ result }
    {
        2 * (self.roll.waiting() + more.min(self.limit as usize)) + self.roll.held() + 2
    }

    // The successors of an entry that is held would pass the limit. Where a leaf is true already the limit is of no matter.
    fn fill(&mut self, held: Held<N>) -> Gave<N>
        requires held { IsHeldIn (state_of N.meaning N.leaf N.truth self.old) held }
        requires unset { is_unset (state_of N.meaning N.leaf N.truth self.old).stop ≡ true }
        requires many { PassesLimit N.meaning N.leaf N.truth self.old held.key }
        ensures { IsFilled N.meaning N.leaf N.truth self.old held result self.new }
    {
        if self.cancel(held.worker) {
            self.drop_held(held);
            return Gave::Stopped;
        }
        let Held { worker, entry, .. } = held;
        drop(self.roll.set(entry as usize, Progress::Dropped));
        self.roll.stop(Stopping::Limit);
        self.journal.push_reserved(Event::Fill { worker, entry });
        Gave::Full
    }

    /// The successors of an entry that is held become entries, where they are none so far; leaves among them wait for nothing. The
    /// first of these cases that fits decides. A stop is set: the entry is dropped. There are at most the limit's number of entries then:
    /// they are entries. A leaf is true already: it stops, and the entry is dropped. Else it stops since there would be too many. For
    /// want of memory nothing changes, and both arguments come back.
    pub fn give(&mut self, alloc: Global, held: Held<N>, successors: Vec<Next<N>>) -> Gave<N>
        requires held { IsHeldIn (state_of N.meaning N.leaf N.truth self.old) held }
        requires meaning { N.meaning held.key ≡ gives (map (child_of N.key) successors.items) }
        ensures { IsGave N.meaning N.leaf N.truth N.key self.old held successors.items result self.new }
    {
        if !self.roll.is_unset() {
            self.drop_held(held);
            return Gave::Stopped;
        }
        let room = self.room_with(successors.len());
        let Ok(()) = self.journal.reserve(room) else {
            return Gave::OutOfMemory(held, successors);
        };
        let entry = held.entry as usize;
        match self.roll.admit(alloc, entry, successors, self.limit) {
            Admitted::Entered => {
                let Held { worker, entry, .. } = held;
                self.journal.push_reserved(Event::Give { worker, entry });
                if self.roll.has_true_leaf() {
                    Gave::Truth
                } else {
                    Gave::Kept
                }
            }
            Admitted::TooMany => self.fill(held),
            Admitted::OutOfMemory(list) => Gave::OutOfMemory(held, list),
        }
    }
}
