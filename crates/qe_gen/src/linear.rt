//! The polynomials of a generated formula: linear in four variables, with coefficients from -9 to 9.

ghost use Rattle.std.specs.Prelude.{◌≡◌, ◌++◌, ◌<◌, ◌≤◌, [], map, OnOk, IfOk};
ghost use Rattle.qe_poly.specs.Monomial.{power};
ghost use Rattle.qe_poly.specs.Polynomial.{term_unless_zero};
ghost use Rattle.qe_poly.specs.Rows.{shown};
ghost use Rattle.qe_gen.specs.Generated as spec;

use crate::OutOfMemory;
use qe_coef::Coef;
use qe_poly::{Monomial, Poly, Term, Var};
use std::alloc::Global;

/// The variables: the number of each is the place of its name, counted from 0.
const A: Var = Var(0);

pub const X1: Var = Var(1);

pub const X2: Var = Var(2);

pub const X3: Var = Var(3);

/// A coefficient of an atom, by its place from 1 to 5.
#[tactic(auto, using(crate::proofs::Polynomials::product_fits))]
fn coefficient_at(number: u32, atom: u32, place: u32) -> Coef
    requires number { number ≤ 999999 }
    requires atom { atom < 16 }
    requires place { place ≤ 5 }
    ensures { result ≡ spec.coefficient_at number atom place }
{
    let sum = (atom + 1) * (place + 2) * (number + 3) + atom * atom + place;
    Coef::small(i64::from(sum % 19) - 9)
}

/// Appends the term with this monomial and this coefficient, or nothing where the coefficient is 0.
fn push_term(terms: &mut Vec<Term>, monomial: Monomial, coef: Coef) -> Result<(), OutOfMemory>
    ensures { OnOk result (map shown terms.new.items
        ≡ map shown terms.old.items ++ term_unless_zero monomial coef []) }
{
    if !coef.is_zero() {
        terms.push(Term { monomial, coef })?;
    }
    Ok(())
}

/// Appends the term of a variable in the same way.
fn push_variable(
    alloc: Global,
    terms: &mut Vec<Term>,
    var: Var,
    coef: Coef,
) -> Result<(), OutOfMemory>
    ensures { OnOk result (map shown terms.new.items
        ≡ map shown terms.old.items ++ term_unless_zero (power var 1) coef []) }
{
    push_term(terms, Monomial::power(alloc, var, 1)?, coef)
}

/// The terms of an atom's polynomial, from the greatest monomial to the least.
#[tactic(auto, using(crate::proofs::Polynomials::terms_in_turn))]
fn terms(alloc: Global, number: u32, atom: u32) -> Result<Vec<Term>, OutOfMemory>
    requires number { number ≤ 999999 }
    requires atom { atom < 16 }
    ensures { IfOk result (λ terms. map shown terms.items ≡ spec.polynomial number atom) }
{
    let mut terms = Vec::new(alloc);
    push_variable(alloc, &mut terms, A, coefficient_at(number, atom, 4))?;
    push_variable(alloc, &mut terms, X1, coefficient_at(number, atom, 1))?;
    push_variable(alloc, &mut terms, X2, coefficient_at(number, atom, 2))?;
    push_variable(alloc, &mut terms, X3, coefficient_at(number, atom, 3))?;
    push_term(
        &mut terms,
        Monomial::one(alloc),
        coefficient_at(number, atom, 5),
    )?;
    Ok(terms)
}

/// The polynomial of an atom. `Err` only where memory runs out.
#[tactic(auto, using(crate::proofs::Polynomials::is_polynomial))]
pub fn polynomial(alloc: Global, number: u32, atom: u32) -> Result<Poly, OutOfMemory>
    requires number { number ≤ 999999 }
    requires atom { atom < 16 }
    ensures { IfOk result (λ p. p ≡ spec.polynomial number atom) }
{
    let terms = terms(alloc, number, atom)?;
    Ok(Poly::of_terms(terms))
}
