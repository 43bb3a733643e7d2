//! Why an operation on polynomials gives none.

use qe_coef::Wide;
use qe_halt::Halt;

/// The most monomials that a sum, a difference or a product may have before zeros are left out.
pub const MOST_MONOMIALS: usize = 4096;

/// A limit that an operation met.
#[derive(Clone, Copy, Debug, PartialEq, Eq)]
pub enum PolyLimit {
    /// A coefficient would be out of range: the operation, and its two numbers.
    Coefficient(Wide),
    /// An exponent would be over 65,535.
    Exponent,
    /// More than 4,096 monomials would meet, those counted whose coefficients cancel.
    Monomials,
}

/// Why an operation gives no polynomial.
pub type PolyStop = Halt<PolyLimit>;
