//! The greatest common divisor of the coefficients of terms, and their quotients by it.

ghost use Rattle.std.specs.Prelude.{◌≡◌, ◌≢◌, ◌≤ℤ◌, pos, neg_ℤ, unsigned_abs, cond, map, IfOk, IsTrue};
ghost use Rattle.qe_poly.specs.Polynomial.{IsPolynomial};
ghost use Rattle.qe_poly.specs.Primitive.{divided, leads_negative, DividesEach, IsContent, IsOwnPrimitive};
ghost use Rattle.qe_poly.specs.Rows.{shown};

use crate::term::Term;
use qe_coef::Coef;
use std::alloc::{AllocError, Global};

/// The greatest common divisor of the coefficients, never negative; 0 where there is none.
pub fn content(terms: &[Term]) -> Coef
    ensures sign { pos 0 ≤ℤ result }
    ensures content { IsContent (unsigned_abs result) (map shown terms.now) }
{
    let mut divisor = Coef::zero();
    for term in terms {
        divisor = divisor.gcd(term.coef);
    }
    divisor
}

/// Whether the leading coefficient is negative.
pub fn leads_negative(terms: &[Term]) -> bool
    ensures { result ≡ leads_negative (map shown terms.now) }
{
    match terms {
        [] => false,
        [leading, ..] => leading.coef.is_negative(),
    }
}

/// Whether it is primitive: the leading coefficient is positive, and no greater number divides all coefficients.
pub fn is_primitive(terms: &[Term]) -> bool
    requires { IsPolynomial (map shown terms.now) }
    ensures { IsTrue result → IsOwnPrimitive (map shown terms.now) }
{
    !leads_negative(terms) && content(terms).is_one()
}

/// The number, negated where it is told so.
pub fn negated_if(is_negated: bool, value: Coef) -> Coef
    ensures { result ≡ cond is_negated (neg_ℤ value) value }
{
    if is_negated { value.neg() } else { value }
}

/// Each coefficient divided by a number, which is not 0 and divides them all.
pub fn quotients(alloc: Global, terms: &[Term], by: Coef) -> Result<Vec<Term>, AllocError>
    requires nonzero { by ≢ pos 0 }
    requires divides { DividesEach (unsigned_abs by) (map shown terms.now) }
    ensures { IfOk result (λ v. map shown v.items ≡ divided by (map shown terms.now)) }
{
    let mut kept = Vec::with_capacity(alloc, terms.len())?;
    for term in terms {
        kept.push(Term {
            monomial: term.monomial.copy(alloc)?,
            coef: term.coef.exact_div(by),
        })?;
    }
    Ok(kept)
}
