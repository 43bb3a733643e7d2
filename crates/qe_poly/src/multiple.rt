//! Multiples and derivatives of ordered terms.

ghost use Rattle.std.specs.Prelude.{◌≡◌, pos, map, MatchResult};
ghost use Rattle.qe_poly.specs.Value.{scaled};
ghost use Rattle.qe_poly.specs.Coefficients.{derivative};
ghost use Rattle.qe_poly.specs.Limits.{scale_limit, derivative_limit};
ghost use Rattle.qe_halt.specs.Outcome.{IsStop};
ghost use Rattle.qe_poly.specs.Rows.{shown};

use crate::limit::{PolyLimit, PolyStop};
use crate::monomial::Var;
use crate::term::Term;
use qe_coef::Coef;
use std::alloc::Global;

/// Each coefficient times a number, without zeros, or the first product that is too wide.
pub fn multiple(alloc: Global, terms: &[Term], by: Coef) -> Result<Vec<Term>, PolyStop>
    ensures { let limit = scale_limit by (map shown terms.now) in
        MatchResult result
        (λ v. (limit ≡ None) × (map shown v.items ≡ scaled by (map shown terms.now)))
        (IsStop limit) }
{
    let mut products = Vec::with_capacity(alloc, terms.len())?;
    for term in terms {
        match term.coef.mul(by) {
            Ok(coef) => {
                if !coef.is_zero() {
                    products.push(Term {
                        monomial: term.monomial.copy(alloc)?,
                        coef,
                    })?;
                }
            }
            Err(wide) => return Err(PolyStop::Limit(PolyLimit::Coefficient(wide))),
        }
    }
    Ok(products)
}

/// The derivative by a variable, or the first product of a coefficient and an exponent that is too wide.
pub fn derivative(alloc: Global, terms: &[Term], var: Var) -> Result<Vec<Term>, PolyStop>
    ensures { let limit = derivative_limit var.0 (map shown terms.now) in
        MatchResult result
        (λ v. (limit ≡ None) × (map shown v.items ≡ derivative var.0 (map shown terms.now)))
        (IsStop limit) }
{
    let mut products = Vec::new(alloc);
    for term in terms {
        match term
            .coef
            .mul(Coef::small(i64::from(term.monomial.exponent_of(var))))
        {
            Ok(coef) => {
                if !coef.is_zero() {
                    products.push(Term {
                        monomial: term.monomial.lowered(alloc, var)?,
                        coef,
                    })?;
                }
            }
            Err(wide) => return Err(PolyStop::Limit(PolyLimit::Coefficient(wide))),
        }
    }
    Ok(products)
}
