//! The texts of names, polynomials and formulas.
//! Knows nothing of reading and elimination.
#![tactic(auto)]

mod formula;
mod name;
mod polynomial;

pub use formula::form_text;
pub use name::name_text;
pub use polynomial::poly_text;
pub use std::alloc::AllocError as OutOfMemory;
