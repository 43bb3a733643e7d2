//! What the calls of a container hand out and answer.

ghost use Rattle.std.specs.Prelude.{◌≡◌};

use qe_piece::{Next, Piece};
use std::marker::Model;

/// An entry that a worker holds, with its piece. It goes back by `give`, `fail` or `drop_held`.
#[derive(Drop)]
pub struct Held<N: Piece> {
    pub(crate) worker: u32,
    pub(crate) entry: u32,
    pub(crate) piece: N,
}

impl<N: Piece> Model for Held<N> {
    ghost use Rattle.qe_board.specs.History.{Holding};

    ghost Value = { Holding };

    ghost view = { λ h. record { worker = h.worker; entry = h.entry; key = N.key h.piece } };
}

impl<N: Piece> Held<N> {
    /// The piece.
    pub fn piece(&self) -> &N
        ensures { N.key result.now ≡ self.now.key }
    {
        &self.piece
    }

    /// The number of the entry.
    pub fn entry(&self) -> u32
        ensures { result ≡ self.now.entry }
    {
        self.entry
    }
}

/// What `take` answers.
#[derive(Drop)]
pub enum Took<N: Piece> {
    /// An entry that waited.
    Piece(Held<N>),
    /// Nothing waits just now, but entries are held, and their successors may come.
    Empty,
    /// Nothing waits and nothing is held.
    Done,
    /// A leaf is true, or a stop is set.
    Stopped,
}

/// What `give` answers.
#[derive(Drop)]
pub enum Gave<N: Piece> {
    /// The successors are entries.
    Kept,
    /// The same, and a leaf is true.
    Truth,
    /// There would be more entries than the limit: a stop is set, and all that waited is dropped.
    Full,
    /// The entry was dropped, since the container stops.
    Stopped,
    /// There was no memory. Nothing changed, and both arguments come back.
    OutOfMemory(Held<N>, Vec<Next<N>>),
}

/// How many entries there are, how many of them wait, and how many are held.
#[derive(Clone, Copy, Debug, PartialEq, Eq)]
pub struct Counts {
    pub entries: u32,
    pub waiting: u32,
    pub held: u32,
}
