//! The maker of successors.

ghost use Rattle.std.specs.Prelude.{◌≡◌, true, false};
ghost use Rattle.qe_piece.specs.Meaning.{GivesMeaning};

use crate::piece::Piece;
use crate::stop::Stop;
use std::alloc::Global;

/// A successor, with the number of the point that it comes from.
#[derive(Drop)]
pub struct Next<N> {
    /// The number of the point.
    pub point: u64,
    /// The successor.
    pub piece: N,
}

/// What came of a piece.
#[derive(Drop)]
pub enum Made<N: Piece> {
    /// Its successors, in order.
    Successors(Vec<Next<N>>),
    /// It fails, and why.
    Failed(N::Fault),
    /// The stop was told first.
    Stopped,
    /// Memory ran out.
    OutOfMemory,
}

/// One who makes the successors of a piece.
pub trait Maker<N: Piece> {
    /// The meaning of a piece that is no leaf: its successors, or its failure. In place of either
    /// `Stopped` may come, only where the stop is told when the call ends, and `OutOfMemory`, where
    /// memory runs out.
    fn expand<T: Stop>(&self, alloc: Global, piece: &N, stop: &mut T) -> Made<N>
        requires { N.leaf (N.key piece.now) ≡ false }
        ensures answer { GivesMeaning N.key (N.meaning (N.key piece.now)) (T.told stop.new) result }
        ensures stays { T.told stop.old ≡ true → T.told stop.new ≡ true }
        ensures basis { T.basis stop.new ≡ T.basis stop.old };
}
