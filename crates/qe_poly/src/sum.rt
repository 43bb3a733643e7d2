//! Sums and differences of ordered terms: both are merged into rows, and the rows give the results.

ghost use Rattle.std.specs.Prelude.{◌≡◌, ◌++◌, ◌∷◌, [], map, pos, IfOk, MatchResult};
ghost use Rattle.qe_coef.specs.Exact.{IsExact};
ghost use Rattle.qe_halt.specs.Outcome.{IsStop};
ghost use Rattle.qe_poly.specs.Rows.{shown, shown_row, merged, kept_results, row_limit, merged_limit};

use crate::limit::{MOST_MONOMIALS, PolyLimit, PolyStop};
use crate::monomial::Monomial;
use crate::term::Term;
use qe_coef::{Coef, Op, Wide};
use std::alloc::{AllocError, Global};
use std::cmp::Ordering;

/// A monomial with its coefficients in two polynomials.
#[derive(Drop)]
struct Row {
    monomial: Monomial,
    left: Coef,
    right: Coef,
}

/// One more row, with a copy of the monomial.
fn push_row(
    rows: &mut Vec<Row>,
    alloc: Global,
    monomial: &Monomial,
    left: Coef,
    right: Coef,
) -> Result<(), AllocError>
    ensures { IfOk result (λ _. map shown_row rows.new.items ≡
        map shown_row rows.old.items ++ (monomial.now, (left, right)) ∷ []) }
{
    rows.push(Row {
        monomial: monomial.copy(alloc)?,
        left,
        right,
    })?;
    Ok(())
}

/// Rows of terms that the left polynomial alone has.
fn push_left(rows: &mut Vec<Row>, alloc: Global, terms: &[Term]) -> Result<(), AllocError>
    ensures { IfOk result (λ _. map shown_row rows.new.items ≡
        map shown_row rows.old.items ++ merged (map shown terms.now) []) }
{
    let zero = Coef::zero();
    for term in terms {
        push_row(rows, alloc, &term.monomial, term.coef, zero)?;
    }
    Ok(())
}

/// Rows of terms that the right polynomial alone has.
fn push_right(rows: &mut Vec<Row>, alloc: Global, terms: &[Term]) -> Result<(), AllocError>
    ensures { IfOk result (λ _. map shown_row rows.new.items ≡
        map shown_row rows.old.items ++ merged [] (map shown terms.now)) }
{
    let zero = Coef::zero();
    for term in terms {
        push_row(rows, alloc, &term.monomial, zero, term.coef)?;
    }
    Ok(())
}

/// The monomials of both in order, each with its two coefficients.
fn merge(alloc: Global, left: &[Term], right: &[Term]) -> Result<Vec<Row>, AllocError>
    ensures { IfOk result (λ v. map shown_row v.items
        ≡ merged (map shown left.now) (map shown right.now)) }
{
    let zero = Coef::zero();
    let mut rows = Vec::with_capacity(alloc, left.len().max(right.len()))?;
    let mut i = 0;
    let mut j = 0;
    while i < left.len() && j < right.len() {
        let a = &left[i];
        let b = &right[j];
        match b.monomial.compare(&a.monomial) {
            Ordering::Less => {
                push_row(&mut rows, alloc, &a.monomial, a.coef, zero)?;
                i += 1;
            }
            Ordering::Equal => {
                push_row(&mut rows, alloc, &a.monomial, a.coef, b.coef)?;
                i += 1;
                j += 1;
            }
            Ordering::Greater => {
                push_row(&mut rows, alloc, &b.monomial, zero, b.coef)?;
                j += 1;
            }
        }
    }
    push_left(&mut rows, alloc, &left[i..])?;
    push_right(&mut rows, alloc, &right[j..])?;
    Ok(rows)
}

/// The operation on two coefficients.
fn apply(op: Op, left: Coef, right: Coef) -> Result<Coef, Wide>
    ensures { IsExact op left right result }
{
    match op {
        Op::Add => left.add(right),
        Op::Sub => left.sub(right),
        Op::Mul => left.mul(right),
    }
}

/// The results of the operation on each row, without zeros, or the first that is too wide.
fn results(alloc: Global, rows: Vec<Row>, op: Op) -> Result<Vec<Term>, PolyStop>
    ensures { let limit = row_limit op (map shown_row rows.items) in
        MatchResult result
        (λ v. (limit ≡ None) × (map shown v.items ≡ kept_results op (map shown_row rows.items)))
        (IsStop limit) }
{
    let mut terms = Vec::with_capacity(alloc, rows.len())?;
    for row in rows {
        let Row {
            monomial,
            left,
            right,
        } = row;
        match apply(op, left, right) {
            Ok(coef) => {
                if !coef.is_zero() {
                    terms.push(Term { monomial, coef })?;
                }
            }
            Err(wide) => return Err(PolyStop::Limit(PolyLimit::Coefficient(wide))),
        }
    }
    Ok(terms)
}

/// The sum of ordered terms, or the difference; `op` is `Add` or `Sub`.
pub fn combine(alloc: Global, left: &[Term], right: &[Term], op: Op) -> Result<Vec<Term>, PolyStop>
    ensures { let p = map shown left.now in
        let q = map shown right.now in
        MatchResult result
        (λ v. (merged_limit op p q ≡ None) × (map shown v.items ≡ kept_results op (merged p q)))
        (IsStop (merged_limit op p q)) }
{
    let rows = merge(alloc, left, right)?;
    if rows.len() > MOST_MONOMIALS {
        return Err(PolyStop::Limit(PolyLimit::Monomials));
    }
    results(alloc, rows, op)
}
