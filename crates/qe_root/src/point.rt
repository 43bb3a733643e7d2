//! The points at which a variable is eliminated.

use qe_poly::{Poly, Var};

/// The root `(p + q*sqrt(r))/s`, by polynomials in the other variables. It has a value at each
/// point where `s` is not 0 and `r` not negative.
#[derive(Drop)]
pub struct RootPoint {
    pub p: Poly,
    pub q: Poly,
    pub r: Poly,
    pub s: Poly,
}

/// A test point of virtual substitution.
#[derive(Drop)]
pub enum Point {
    /// A root.
    Root(RootPoint),
    /// A root plus an infinitesimal: just above the root.
    RootPlus(RootPoint),
    /// Minus infinity: below all values that matter.
    MinusInf,
}

/// A variable with the point that is put in for it.
#[derive(Drop)]
pub struct Turn {
    pub var: Var,
    pub point: Point,
}
