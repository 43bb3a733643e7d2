//! Which variables occur.

ghost use Rattle.std.specs.Prelude.{◌≡◌, map};
ghost use Rattle.qe_poly.specs.Occurs.{occurs_in, occurs_in_some};
ghost use Rattle.qe_poly.specs.Rows.{shown};

use crate::monomial::{Power, Var};
use crate::term::Term;

/// Whether the variable is that of one of the powers.
fn occurs_in(powers: &[Power], var: Var) -> bool
    ensures { result ≡ occurs_in var.0 powers.now }
{
    for power in powers {
        if power.var == var {
            return true;
        }
    }
    false
}

/// Whether the variable occurs in one of the terms.
pub fn occurs_in_some(terms: &[Term], var: Var) -> bool
    ensures { result ≡ occurs_in_some var.0 (map shown terms.now) }
{
    for term in terms {
        if occurs_in(term.monomial.powers(), var) {
            return true;
        }
    }
    false
}
