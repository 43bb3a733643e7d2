//! The plain run: one worker alone, until nothing is left to do.

ghost use Rattle.std.specs.Prelude.{◌≡◌, false, [], OnOk};
ghost use Rattle.qe_board.specs.State.{has_true_leaf, is_unset};
ghost use Rattle.qe_board.specs.History.{state_of};
ghost use Rattle.qe_board.specs.Calls.{IsHeldIn, is_over};
ghost use Rattle.qe_board.specs.Plain.{IsPlain, IsExpanded};

use crate::board::Board;
use crate::held::{Gave, Held, Took};
use qe_piece::{Made, Maker, Never, OutOfMemory, Piece};
use std::alloc::Global;

impl<N: Piece> Board<N> {
    // Expands what worker 0 holds.
    fn expand_alone<M: Maker<N>>(
        &mut self,
        alloc: Global,
        maker: &M,
        held: Held<N>,
    ) -> Result<(), OutOfMemory>
        requires held { IsHeldIn (state_of N.meaning N.leaf N.truth self.old) held }
        requires inner { N.leaf held.key ≡ false }
        requires goes_on { is_over N.truth (state_of N.meaning N.leaf N.truth self.old) ≡ false }
        ensures { OnOk result (IsExpanded N.meaning N.leaf N.truth self.old held self.new) }
    {
        match maker.expand(alloc, held.piece(), &mut Never) {
            Made::Successors(successors) => match self.give(alloc, held, successors) {
                Gave::OutOfMemory(_, _) => Err(OutOfMemory),
                _ => Ok(()),
            },
            Made::Failed(fault) => {
                self.fail(held, fault);
                Ok(())
            }
            Made::Stopped | Made::OutOfMemory => Err(OutOfMemory),
        }
    }

    /// Fills the container by worker 0 alone, until nothing is left to do. The journal is then that of the plain run.
    pub fn fill_alone<M: Maker<N>>(&mut self, alloc: Global, maker: &M) -> Result<(), OutOfMemory>
        requires { self.old.journal ≡ [] }
        ensures root { OnOk result (self.new.root ≡ self.old.root) }
        ensures limit { OnOk result (self.new.limit ≡ self.old.limit) }
        ensures plain { OnOk result (IsPlain N.meaning N.leaf N.truth self.new.limit self.new.root self.new.journal) }
    {
        while !self.is_done() {
            match self.take(0) {
                Took::Piece(held) => self.expand_alone(alloc, maker, held)?,
                _ => {
                    self.cancel(0);
                }
            }
        }
        Ok(())
    }
}
