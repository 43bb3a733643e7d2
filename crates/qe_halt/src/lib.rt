//! Why a call gives no result: a limit that it met, or no memory; with the words in which contracts say so.
//! Knows nothing of which limits there are.
#![tactic(auto)]

mod halt;
pub mod laws;

pub use halt::Halt;
pub use std::alloc::AllocError as OutOfMemory;
