//! Where bytes come from and where they go: two traits, whole reads and writes, and the ends.
//! Knows nothing of formulas, words or statuses.
#![tactic(auto)]

mod memory;
mod sink;
mod source;
mod standard;
mod whole;

pub use memory::{MemSink, MemSource};
pub use sink::Sink;
pub use source::{Failed, Source};
pub use standard::{StdSink, StdSource};
pub use std::alloc::AllocError as OutOfMemory;
pub use whole::{READ_LIMIT, ReadStop, read_all, write_all};
