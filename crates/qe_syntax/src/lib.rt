//! The grammar of formulas over tokens: the tree of a text, and its first fault.
//! Knows no numbers of variables and no polynomials.
#![tactic(auto)]

mod cursor;
mod fault;
mod formula;
pub mod laws;
mod term;
mod text;
mod tree;

pub use fault::{ParseStop, TextFault};
pub use qe_list::Sequence;
pub use qe_token::{Located, Name, Relation, Token};
pub use std::alloc::AllocError as OutOfMemory;
pub use text::parse;
pub use tree::{Addend, Comparison, Factor, Formula, Term};
