//! Substitution of a test point for a variable of degree two at most: at a root, just above a root,
//! or below all numbers. Knows nothing of candidates, guards and nodes, nor of how a formula is
//! simplified.
#![tactic(auto)]

mod below;
mod formula;
mod root;
mod stop;

pub use formula::substitute;
pub use qe_root::{
    Atom, Form, Forms, Point, Poly, PolyLimit, PolyStop, RootPoint, Sequence, Signs, Stage,
    SubstStop, Var,
};
pub use std::alloc::AllocError as OutOfMemory;
