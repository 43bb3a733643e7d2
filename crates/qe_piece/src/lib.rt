//! What a machine over nodes asks of a node, of the maker of its successors and of the one who may
//! stop it. Knows no formulas, no machine and no threads.
#![tactic(auto)]

mod maker;
mod piece;
mod stop;

pub use maker::{Made, Maker, Next};
pub use piece::Piece;
pub use std::alloc::AllocError as OutOfMemory;
pub use stop::{Never, Stop};
