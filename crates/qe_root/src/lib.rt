//! Root points: the value of a polynomial at a root `(p + q*sqrt(r))/s` without computing the root,
//! and the formula for its sign. Knows nothing of candidates and guards, nor of how the points come
//! about.
#![tactic(auto)]

mod form;
pub mod laws;
mod point;
mod stop;
mod value;

pub use form::sign_form;
pub use point::{Point, RootPoint, Turn};
pub use qe_form::{Atom, Form, Forms, Sequence, Signs};
pub use qe_poly::{Poly, PolyLimit, PolyStop, Var};
pub use std::alloc::AllocError as OutOfMemory;
pub use stop::{Stage, SubstStop};
pub use value::at_root;
