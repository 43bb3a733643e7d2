//! The laws of roots. Each function does nothing: its clause is the law.

ghost use Rattle.qe_root.specs.Laws.{OneValue, SignAtRoot};

/// Where `s` is not 0 and `r` not negative, the root has a value, and all its values are equal.
pub fn one_value()
    ensures { OneValue }
{}

/// Where `a` and `b` are the parts of a polynomial's value at a root, the formula for the sign of
/// `a + b*sqrt(r)` is true at the points where the polynomial has an allowed sign at the root, and
/// false at the others.
pub fn sign_at_root()
    ensures { SignAtRoot }
{}
