//! The reader of the whole language: bytes to a formula with its names, or the first fault.
//! Knows nothing of elimination and of printing.
#![tactic(auto)]

mod fault;
mod formula;
mod free_names;
mod occurrence;
mod reader;
mod scope;
mod value;

pub use fault::ReadFault;
pub use qe_coef::Wide;
pub use qe_form::Input;
pub use reader::read;
pub use std::alloc::AllocError as OutOfMemory;
