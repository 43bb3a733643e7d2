//! Products of ordered terms: the products of all pairs are collected by their monomials.

ghost use Rattle.std.specs.Prelude.{◌≡◌, [], cond, map, IfOk, MatchResult};
ghost use Rattle.qe_poly.specs.Polynomial.{products};
ghost use Rattle.qe_halt.specs.Outcome.{IsStop, or_else};
ghost use Rattle.qe_poly.specs.Rows.{shown};
ghost use Rattle.qe_poly.specs.Tally.{shown_group, IsInOrder};
ghost use Rattle.qe_poly.specs.Collected.{product_row, has_high, exponent_limit, fitted_row, fitted, entered, limit_of, row_wide, pairs_wide, monomials_limit, tallied_limit, tallied_terms, collected_limit};

use crate::limit::{MOST_MONOMIALS, PolyLimit, PolyStop};
use crate::tally::{Group, enter};
use crate::term::Term;
use qe_coef::{Coef, Wide};
use std::alloc::Global;

/// Whether some product of a term has an exponent over 65,535.
fn has_high_row(term: &Term, right: &[Term]) -> bool
    ensures { result ≡ has_high (product_row (shown term.now) (map shown right.now)) }
{
    for other in right {
        if term.monomial.has_high_product(&other.monomial) {
            return true;
        }
    }
    false
}

/// The limit of products that have too many monomials: an exponent over 65,535 comes first.
#[tactic(auto, using(crate::proofs::Products::has_high_more))]
fn crowded(left: &[Term], right: &[Term]) -> PolyLimit
    ensures { result ≡ cond (has_high (products (map shown left.now)
        (map shown right.now))) PolyLimit.Exponent PolyLimit.Monomials }
{
    for term in left {
        if has_high_row(term, right) {
            return PolyLimit::Exponent;
        }
    }
    PolyLimit::Monomials
}

/// Enters the products of a term. Where one leaves the range, 0 is entered; the first such is handed out.
fn enter_row(
    alloc: Global,
    groups: &mut Vec<Group>,
    first: Option<Wide>,
    term: &Term,
    right: &[Term],
) -> Result<Option<Wide>, PolyStop>
    requires { IsInOrder groups.now.items }
    ensures order { IfOk result (λ _. IsInOrder groups.new.items) }
    ensures entered { let t = shown term.now in
        let q = map shown right.now in
        let limit = exponent_limit (product_row t q) in
        MatchResult result
        (λ wide. (limit ≡ None) × (limit_of wide ≡ or_else (limit_of first) (row_wide t q))
        × (map shown_group groups.new.items ≡ entered (fitted_row t q)
        (map shown_group groups.old.items)))
        (IsStop limit) }
{
    let mut wide = first;
    for other in right {
        let Some(monomial) = term.monomial.times(alloc, &other.monomial)? else {
            return Err(PolyStop::Limit(PolyLimit::Exponent));
        };
        match term.coef.mul(other.coef) {
            Ok(coef) => enter(groups, monomial, coef)?,
            Err(met) => {
                wide = wide.or(Some(met));
                enter(groups, monomial, Coef::zero())?;
            }
        }
    }
    Ok(wide)
}

/// The products of all pairs by their monomials, and the first product of coefficients that leaves the range.
fn collect(
    alloc: Global,
    left: &[Term],
    right: &[Term],
) -> Result<(Vec<Group>, Option<Wide>), PolyStop>
    ensures { let p = map shown left.now in
        let q = map shown right.now in
        MatchResult result
        (λ r. (monomials_limit p q ≡ None) × (limit_of r.1 ≡ pairs_wide p q)
        × (map shown_group (r.0).items ≡ entered (fitted p q) []))
        (IsStop (monomials_limit p q)) }
{
    let mut groups = Vec::with_capacity(alloc, left.len().max(right.len()))?;
    let mut wide = None;
    for term in left {
        wide = enter_row(alloc, &mut groups, wide, term, right)?;
        if groups.len() > MOST_MONOMIALS {
            return Err(PolyStop::Limit(crowded(left, right)));
        }
    }
    Ok((groups, wide))
}

/// The sums of groups, without zeros, or the first whose magnitudes leave the range.
fn finish(alloc: Global, groups: Vec<Group>) -> Result<Vec<Term>, PolyStop>
    ensures { let limit = tallied_limit (map shown_group groups.items) in
        MatchResult result
        (λ v. (limit ≡ None) × (map shown v.items ≡ tallied_terms (map shown_group groups.items)))
        (IsStop limit) }
{
    let mut terms = Vec::with_capacity(alloc, groups.len())?;
    for group in groups {
        let Group { monomial, tally } = group;
        if let Some(wide) = tally.over {
            return Err(PolyStop::Limit(PolyLimit::Coefficient(wide)));
        }
        if !tally.sum.is_zero() {
            terms.push(Term {
                monomial,
                coef: tally.sum,
            })?;
        }
    }
    Ok(terms)
}

/// The product of ordered terms.
pub fn multiply(alloc: Global, left: &[Term], right: &[Term]) -> Result<Vec<Term>, PolyStop>
    ensures { let p = map shown left.now in
        let q = map shown right.now in
        MatchResult result
        (λ v. (collected_limit p q ≡ None) × (map shown v.items
        ≡ tallied_terms (entered (fitted p q) [])))
        (IsStop (collected_limit p q)) }
{
    let (groups, wide) = collect(alloc, left, right)?;
    match wide {
        Some(wide) => Err(PolyStop::Limit(PolyLimit::Coefficient(wide))),
        None => finish(alloc, groups),
    }
}
