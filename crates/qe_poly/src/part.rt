//! The terms of a polynomial that have one power of a variable.

ghost use Rattle.std.specs.Prelude.{◌≡◌, map, IfOk};
ghost use Rattle.qe_poly.specs.Coefficients.{coefficient_in};
ghost use Rattle.qe_poly.specs.Rows.{shown};

use crate::monomial::Var;
use crate::term::Term;
use std::alloc::{AllocError, Global};

/// The terms with this exponent of the variable, without the variable.
pub fn part(alloc: Global, terms: &[Term], var: Var, exponent: u32) -> Result<Vec<Term>, AllocError>
    ensures { IfOk result (λ v. map shown v.items
        ≡ coefficient_in var.0 exponent (map shown terms.now)) }
{
    let mut kept = Vec::new(alloc);
    for term in terms {
        if term.monomial.exponent_of(var) == exponent {
            kept.push(Term {
                monomial: term.monomial.without(alloc, var)?,
                coef: term.coef,
            })?;
        }
    }
    Ok(kept)
}
