//! Terms of polynomials.

ghost use Rattle.std.specs.Prelude.{refl, Some};
ghost use Rattle.std.specs.Ordering.{as_partial_cmp};
ghost use Rattle.std.specs.Cmp.{on_total, po};
ghost use Rattle.qe_poly.specs.Order.{term_cmp, term_total, term_ties};
ghost use Rattle.qe_poly.specs.Rows.{shown};

use crate::monomial::Monomial;
use qe_coef::Coef;
use std::cmp::Ordering;

/// A monomial with its coefficient, which is not 0 in a polynomial.
#[derive(PartialEq, Eq, Hash, Drop)]
pub struct Term {
    pub monomial: Monomial,
    pub coef: Coef,
}

impl Ord for Term {
    ghost cmp = { λ t u. term_cmp (shown t) (shown u) };

    ghost total = { on_total shown term_total };

    ghost matches_partial_cmp = { λ _ _. refl };

    ghost matches_eq = { λ t u. term_ties (shown t) (shown u) };

    /// The greater monomial comes first, and for one monomial the smaller coefficient.
    fn cmp(&self, other: &Term) -> Ordering {
        let monomials = other.monomial.compare(&self.monomial);
        monomials.then(self.coef.value().cmp(&other.coef.value()))
    }
}

impl PartialOrd for Term {
    ghost partial_cmp = { λ t u. Some (term_cmp (shown t) (shown u)) };

    ghost laws = { po (on_total shown term_total) (λ t u. term_ties (shown t) (shown u)) };

    fn partial_cmp(&self, other: &Term) -> Option<Ordering> {
        Some(self.cmp(other))
    }
}
