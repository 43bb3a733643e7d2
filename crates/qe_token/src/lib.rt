//! The tokens of a text: each a run of bytes, as long as possible, with blanks between them. Knows no grammar.
#![tactic(auto)]

mod scan;
mod token;

pub use scan::tokens;
pub use std::alloc::AllocError as OutOfMemory;
pub use token::{Located, Name, Relation, Token};
