//! The container of nodes: one machine over pieces, its events and its runs.
//! Knows no formulas, no threads and no lock.
#![tactic(auto)]

mod admit;
mod alone;
mod board;
mod entries;
mod event;
mod held;
pub mod laws;
mod roll;
mod settle;
mod visits;

pub use board::Board;
pub use event::{Event, Stopping};
pub use held::{Counts, Gave, Held, Took};
pub use settle::Left;
pub use visits::{Found, Path, Place};
