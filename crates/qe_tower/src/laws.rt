//! The laws of elements and numbers. Each function does nothing: its clause is the law.

ghost use Rattle.qe_tower.specs.Laws.{RingLaws, OrderLaws, SumLaws, ProductLaws, CarryLaws, InverseLaw, RootLaw};

/// The elements over one tower are a commutative ring up to the sign of the difference, and so are the numbers.
pub fn ring()
    ensures { RingLaws }
{}

/// The order is transitive, total and antisymmetric, and kept by sums and by products with what is not negative.
pub fn order()
    ensures { OrderLaws }
{}

/// The sign of a sum comes from those of its parts: not negative where they are not, and positive where moreover one is.
pub fn sign_of_sum()
    ensures { SumLaws }
{}

/// The sign of a product is the product of the signs; one is positive, and a negative has the opposite sign.
pub fn sign_of_product()
    ensures { ProductLaws }
{}

/// Lifting and carrying into another tower keep sums, products, negatives and signs, so numbers may be reckoned with over
/// any common tower; equal numbers have equal sums, products, negatives and signs.
pub fn carry()
    ensures { CarryLaws }
{}

/// Each number that is not zero has an inverse over the same tower.
pub fn inverse()
    ensures { InverseLaw }
{}

/// Each number that is not negative has a square root that is not negative, over its tower with that one radicand more.
pub fn root()
    ensures { RootLaw }
{}
