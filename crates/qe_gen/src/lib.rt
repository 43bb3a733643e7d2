//! The generator of a benchmark's inputs: a number determines a formula and the names of its variables.
//! Knows nothing of elimination and of texts.
#![tactic(auto)]

mod generator;
mod linear;

pub use generator::make;
pub use qe_form::Input;
pub use std::alloc::AllocError as OutOfMemory;
