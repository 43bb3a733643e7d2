//! Candidates: where a variable is tested.

use crate::Poly;

/// Which root of a polynomial `a*x^2 + b*x + c`.
#[derive(Clone, Copy, Debug, PartialEq, Eq)]
pub enum Which {
    /// That of degree one, `-c/b`. A polynomial of degree two has it where `a` is 0.
    Linear,
    /// The root `(-b + sqrt(b^2 - 4*a*c))/(2*a)`.
    Upper,
    /// The root `(-b - sqrt(b^2 - 4*a*c))/(2*a)`.
    Lower,
}

/// Where a variable is tested.
#[derive(Drop)]
pub enum Candidate {
    /// A root of a polynomial, and just above it where `plus` is true. `atom` is the number of an
    /// atom with that polynomial, counted from 0.
    Root {
        poly: Poly,
        atom: u64,
        which: Which,
        plus: bool,
    },
    /// Below all numbers.
    MinusInf,
}

/// Where a candidate stands that comes from a root.
#[derive(Clone, Copy)]
pub enum Spot {
    /// At the root.
    At,
    /// Just above the root.
    Above,
}

impl Spot {
    ghost use Rattle.std.specs.Prelude.{◌≡◌};
    ghost use Rattle.qe_points.specs.Candidates.{is_above};

    /// The spot of a candidate with this `plus`.
    pub fn of(plus: bool) -> Spot
        ensures { is_above result ≡ plus }
    {
        if plus { Spot::Above } else { Spot::At }
    }

    /// Whether it is just above the root.
    pub fn is_above(self) -> bool
        ensures { result ≡ is_above self }
    {
        match self {
            Spot::At => false,
            Spot::Above => true,
        }
    }
}
