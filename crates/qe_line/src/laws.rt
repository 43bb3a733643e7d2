//! What holds on a line over every ordered field with square roots. Each function does nothing: its clause is the law.

ghost use Rattle.qe_ring.specs.Ring.{Operations};
ghost use Rattle.qe_ring.specs.Sign.{Sign};
ghost use Rattle.qe_line.specs.Field.{IsEuclideanField};
ghost use Rattle.qe_line.specs.Laws.{KeepsItsSign, SignAtRoot, SignAtQuotient, OneValue, RespectsEquality};
ghost use Rattle.qe_line.specs.Laws.{SignJustAbove, SignFarBelow, Complete, CompleteByKind};

/// An ordered field in which all that is not negative has a square root: the values, the operations and the signs.
/// Where there is one, an `impl` for a type without values names it, and the laws hold at that type.
pub trait Line {
    ghost carrier: { Type 0 };

    ghost operations: { Operations carrier };

    ghost sign_of: { carrier → Sign };

    ghost field: { IsEuclideanField operations sign_of };
}

/// The line of the numbers.
pub struct Numbers;

impl Line for Numbers {
    ghost use Rattle.qe_tower.proofs.ValidNumbers.{valid_operations, valid_sign};
    ghost use Rattle.qe_tower.specs.Number.{ValidNumber};
    ghost use Rattle.qe_line.specs.Numbers.{numbers};

    ghost carrier = { ValidNumber };

    ghost operations = { valid_operations };

    ghost sign_of = { valid_sign };

    ghost field = { numbers };
}

/// A polynomial of degree two at most has one sign at two values, or a root between them.
pub fn keeps_its_sign<L: Line>()
    ensures { KeepsItsSign L.operations L.sign_of }
{}

/// The sign of a polynomial of degree two at most at the value of a root.
pub fn sign_at_root<L: Line>()
    ensures { SignAtRoot L.operations L.sign_of }
{}

/// The sign of a polynomial of degree one at most at a quotient.
pub fn sign_at_quotient<L: Line>()
    ensures { SignAtQuotient L.operations L.sign_of }
{}

/// A root whose divisor is not zero and whose radicand is not negative has one value.
pub fn one_value<L: Line>()
    ensures { OneValue L.operations L.sign_of }
{}

/// Equal coefficients and values give equal signs and the same roots.
pub fn respects_equality<L: Line>()
    ensures { RespectsEquality L.operations L.sign_of }
{}

/// The sign of a polynomial of degree two at most just above a value.
pub fn sign_just_above<L: Line>()
    ensures { SignJustAbove L.operations L.sign_of }
{}

/// The sign of a polynomial of degree two at most below some bound.
pub fn sign_far_below<L: Line>()
    ensures { SignFarBelow L.operations L.sign_of }
{}

/// What is asked of the signs of finitely many polynomials holds at some value exactly where it holds at a test point.
pub fn complete<L: Line>()
    ensures { Complete L.operations L.sign_of }
{}

/// The same for one condition on each polynomial, with fewer test points.
pub fn complete_by_kind<L: Line>()
    ensures { CompleteByKind L.operations L.sign_of }
{}
