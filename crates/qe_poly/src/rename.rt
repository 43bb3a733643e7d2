//! A polynomial with one variable in the place of another.

ghost use Rattle.std.specs.Prelude.{◌≡◌, false, map, IfOk};
ghost use Rattle.qe_poly.specs.Rows.{shown};
ghost use Rattle.qe_poly.specs.Renamed.{renamed_monomial};
ghost use Rattle.qe_poly.specs.Occurs.{occurs_in_some};

use crate::monomial::Var;
use crate::term::Term;
use std::alloc::{AllocError, Global};

/// The terms with the variable `to`, which does not occur in them, in the place of `from`, in the same order.
pub fn renamed_terms(
    alloc: Global,
    terms: &[Term],
    from: Var,
    to: Var,
) -> Result<Vec<Term>, AllocError>
    requires { occurs_in_some to.0 (map shown terms.now) ≡ false }
    ensures { IfOk result (λ v. map shown v.items
        ≡ map (λ t. (renamed_monomial from to t.0, t.1)) (map shown terms.now)) }
{
    let mut made = Vec::with_capacity(alloc, terms.len())?;
    for term in terms {
        made.push(Term {
            monomial: term.monomial.renamed(alloc, from, to)?,
            coef: term.coef,
        })?;
    }
    Ok(made)
}
