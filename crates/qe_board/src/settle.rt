//! All that a worker does with what came of a piece, in one call: so a lock is taken once for it.

ghost use Rattle.std.specs.Prelude.{◌≡◌, false, true};
ghost use Rattle.qe_board.specs.declared.event.Event.TheVariants.{Cancel, Starve};
ghost use Rattle.qe_board.specs.State.{is_unset, has_true_leaf};
ghost use Rattle.qe_board.specs.History.{grown, state_of};
ghost use Rattle.qe_board.specs.Calls.{IsHeldIn, is_over};
ghost use Rattle.qe_board.specs.Settled.{let_go, IsMade, IsLeft, IsForsaken};

use crate::board::Board;
use crate::held::{Gave, Held};
use qe_piece::{Made, Piece};
use std::alloc::Global;

/// What became of what a worker held.
#[derive(Clone, Copy, Debug, PartialEq, Eq)]
pub enum Left {
    /// It was expanded, or it failed.
    Kept,
    /// It was expanded, and a leaf is true.
    Truth,
    /// There would have been more entries than the limit.
    Full,
    /// It was dropped, since the container stops.
    Stopped,
    /// It was dropped for want of memory, and no leaf is true.
    Starved,
}

impl<N: Piece> Board<N> {
    // A leaf is true or a stop is set: a stop is set, where none was, and the entry that is held is dropped.
    fn cancel_and_drop(&mut self, held: Held<N>)
        requires held { IsHeldIn (state_of N.meaning N.leaf N.truth self.old) held }
        requires over { is_over N.truth (state_of N.meaning N.leaf N.truth self.old) ≡ true }
        ensures { self.new ≡ grown self.old (let_go (is_unset (state_of N.meaning N.leaf N.truth self.old).stop) (Cancel held.worker) held) }
    {
        self.cancel(held.worker);
        self.drop_held(held);
    }

    // No leaf is true: a stop for want of memory is set, where none was, and the entry that is held is dropped.
    fn starve_and_drop(&mut self, held: Held<N>)
        requires held { IsHeldIn (state_of N.meaning N.leaf N.truth self.old) held }
        requires none { has_true_leaf N.truth (state_of N.meaning N.leaf N.truth self.old) ≡ false }
        ensures { self.new ≡ grown self.old (let_go (is_unset (state_of N.meaning N.leaf N.truth self.old).stop) (Starve held.worker) held) }
    {
        self.starve(held.worker);
        self.drop_held(held);
    }

    // Memory ran out on the entry that is held.
    fn forsake(&mut self, held: Held<N>) -> Left
        requires held { IsHeldIn (state_of N.meaning N.leaf N.truth self.old) held }
        ensures { IsForsaken N.meaning N.leaf N.truth self.old held result self.new }
    {
        if self.has_true_leaf() {
            self.cancel_and_drop(held);
            Left::Stopped
        } else {
            self.starve_and_drop(held);
            Left::Starved
        }
    }

    /// Does all that is asked for by what came of the piece of an entry that is held. Successors are given and a failure is noted.
    /// Where the maker was told to stop, the container is stopped, if it was not yet, and the entry is dropped. Where memory ran out,
    /// here or before, the container is stopped for it, if no leaf is true, and the entry is dropped.
    pub fn settle(&mut self, alloc: Global, held: Held<N>, made: Made<N>) -> Left
        requires held { IsHeldIn (state_of N.meaning N.leaf N.truth self.old) held }
        requires made { IsMade N.meaning N.leaf N.truth N.key self.old held made }
        ensures { IsLeft N.meaning N.leaf N.truth N.key self.old held made result self.new }
    {
        match made {
            Made::Successors(successors) => match self.give(alloc, held, successors) {
                Gave::Kept => Left::Kept,
                Gave::Truth => Left::Truth,
                Gave::Full => Left::Full,
                Gave::Stopped => Left::Stopped,
                Gave::OutOfMemory(held, _) => self.forsake(held),
            },
            Made::Failed(fault) => {
                self.fail(held, fault);
                Left::Kept
            }
            Made::Stopped => {
                self.cancel_and_drop(held);
                Left::Stopped
            }
            Made::OutOfMemory => self.forsake(held),
        }
    }
}
