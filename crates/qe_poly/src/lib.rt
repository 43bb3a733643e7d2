//! Polynomials in many variables with whole coefficients: exact, or the limit that an operation met.
//! Knows nothing of formulas and of the numbers that stand for the variables.
#![tactic(auto)]

mod limit;
mod monomial;
mod multiple;
mod occurrence;
mod part;
mod poly;
mod primitive;
mod product;
mod rename;
mod sum;
mod tally;
mod term;

pub use limit::{PolyLimit, PolyStop};
pub use monomial::{Monomial, Power, Var};
pub use poly::Poly;
pub use std::alloc::AllocError as OutOfMemory;
pub use term::Term;
