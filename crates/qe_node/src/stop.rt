//! Why a node has no successors.

use crate::{PolyLimit, Stage};
use qe_halt::Halt;

/// Why a node fails.
#[derive(Clone, Copy, Debug, PartialEq, Eq)]
pub enum NodeStop {
    /// The degree in each of its variables is over 2.
    DegreeExcess,
    /// At the candidate with the number `point`, counted from 0, an operation on polynomials met a
    /// limit: in this stage, at the atom of the node's formula with this number, counted from 0.
    Limit {
        point: u64,
        atom: u64,
        stage: Stage,
        limit: PolyLimit,
    },
    /// At the candidate with the number `point` the formula would have more than 65,536 atoms and
    /// constants.
    TooLarge {
        point: u64,
    },
}

/// Why no successors are given, where memory does not run out.
#[derive(Clone, Copy, Debug, PartialEq, Eq)]
pub enum GrowthLimit {
    /// The node fails.
    Failed(NodeStop),
    /// The stop was told.
    Stopped,
}

/// Why no successors are given.
pub type GrowthStop = Halt<GrowthLimit>;
