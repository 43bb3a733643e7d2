//! Polynomials and their operations.

ghost use Rattle.std.specs.Prelude.{ℤ, pos, refl, Some, ◌≡◌, ◌≢◌, ◌≤◌, ◌∷◌, ◌↔◌, [], IfOk, IfSome, IfNone, IsTrue, map};
ghost use Rattle.qe_poly.specs.Rows.{shown};
ghost use Rattle.std.specs.Cmp.{partial_equiv_from_equiv, po};
ghost use Rattle.qe_poly.specs.Polynomial as spec;
ghost use Rattle.qe_poly.specs.Numbers.{is_zero, is_negative};
ghost use Rattle.qe_poly.specs.Coefficients.{degree_in, coefficient_in, derivative};
ghost use Rattle.qe_poly.specs.Value.{scaled};
ghost use Rattle.qe_poly.specs.Limits.{sum_limit, product_limit, scale_limit, derivative_limit};
ghost use Rattle.qe_halt.specs.Outcome.{IsAnswer};
ghost use Rattle.qe_poly.specs.Primitive.{primitive, leads_negative, IsMultiple};
ghost use Rattle.qe_poly.specs.Equal.{poly_eq, poly_eq_equiv, poly_fed, poly_fed_alike};
ghost use Rattle.qe_poly.specs.Renamed.{renamed};
ghost use Rattle.qe_poly.specs.Occurs.{occurs_in_some, OccursInSome};
ghost use Rattle.qe_poly.specs.Order.{poly_cmp, poly_total, poly_ties};

use crate::limit::PolyStop;
use crate::monomial::{Monomial, Var};
use crate::multiple::{derivative, multiple};
use crate::occurrence::occurs_in_some;
use crate::part::part;
use crate::primitive::{content, is_primitive, leads_negative, negated_if, quotients};
use crate::product::multiply;
use crate::rename::renamed_terms;
use crate::sum::combine;
use crate::term::Term;
use qe_coef::{Coef, Op};
use std::alloc::{AllocError, Global};
use std::cmp::Ordering;
use std::hash::{Hash, Hasher};
use std::marker::Model;

/// A polynomial, as the list of its terms from the greatest monomial to the least, with no coefficient 0.
/// So polynomials are equal where their terms are.
#[derive(Drop)]
pub struct Poly {
    terms: Vec<Term>,
}

impl Model for Poly {
    ghost use Rattle.std.specs.Prelude.{List, ℤ, map};
    ghost use Rattle.qe_poly.specs.declared.monomial.Power.{Power};
    ghost use Rattle.qe_poly.specs.Polynomial.{IsPolynomial};

    ghost Value = { List (List Power × ℤ) };

    ghost view = { λ p. map (λ t. (t.monomial, t.coef)) p.terms.items };

    ghost invariant = { λ p. IsPolynomial (map (λ t. (t.monomial, t.coef)) p.terms.items) };
}

impl Poly {
    /// The polynomial that is this number, with no term where it is 0.
    pub fn constant(alloc: Global, value: Coef) -> Result<Poly, AllocError>
        ensures { IfOk result (λ p. p ≡ spec.constant value) }
    {
        let mut terms = Vec::new(alloc);
        if !value.is_zero() {
            terms.push(Term {
                monomial: Monomial::one(alloc),
                coef: value,
            })?;
        }
        Ok(Poly { terms })
    }

    /// A power of one variable, which is the constant 1 for the exponent 0. The exponent is at most 65,535.
    pub fn power(alloc: Global, var: Var, exponent: u32) -> Result<Poly, AllocError>
        requires { exponent ≤ 65535 }
        ensures { IfOk result (λ p. p ≡ spec.power_of var exponent) }
    {
        let mut terms = Vec::new(alloc);
        terms.push(Term {
            monomial: Monomial::power(alloc, var, exponent)?,
            coef: Coef::small(1),
        })?;
        Ok(Poly { terms })
    }

    /// The polynomial with these terms, which go from the greatest monomial to the least. None has the
    /// coefficient 0.
    pub fn of_terms(terms: Vec<Term>) -> Poly
        requires { spec.IsPolynomial (map shown terms.items) }
        ensures { result ≡ map shown terms.items }
    {
        Poly { terms }
    }

    /// The same polynomial in memory of its own.
    pub fn copy(&self, alloc: Global) -> Result<Poly, AllocError>
        ensures { IfOk result (λ p. p ≡ self.now) }
    {
        let mut terms = Vec::with_capacity(alloc, self.terms.len())?;
        for term in &self.terms {
            terms.push(Term {
                monomial: term.monomial.copy(alloc)?,
                coef: term.coef,
            })?;
        }
        Ok(Poly { terms })
    }

    /// The sum. The limit is `Monomials` where the two have more than 4,096 different monomials, and else `Coefficient`
    /// at the greatest monomial whose sum is out of range, with the two coefficients there.
    pub fn add(&self, alloc: Global, other: &Poly) -> Result<Poly, PolyStop>
        ensures { IsAnswer (sum_limit Op.Add self.now other.now)
            (spec.sum self.now other.now) result }
    {
        let terms = combine(alloc, &self.terms, &other.terms, Op::Add)?;
        Ok(Poly { terms })
    }

    /// The difference; its limits are those of `add`, at the differences.
    pub fn sub(&self, alloc: Global, other: &Poly) -> Result<Poly, PolyStop>
        ensures { IsAnswer (sum_limit Op.Sub self.now other.now)
            (spec.difference self.now other.now) result }
    {
        let terms = combine(alloc, &self.terms, &other.terms, Op::Sub)?;
        Ok(Poly { terms })
    }

    /// The product. The limit is `Exponent` where the exponents of one variable in some pair of terms add to more than
    /// 65,535, and else `Monomials` where the pairs have more than 4,096 different products. Else it is `Coefficient` at the
    /// first pair whose coefficients' product is out of range, with the two coefficients, or at the greatest monomial
    /// where the magnitudes that meet add to more than 2^127-1, with the sum before and the magnitude that was too much.
    pub fn mul(&self, alloc: Global, other: &Poly) -> Result<Poly, PolyStop>
        ensures { IsAnswer (product_limit self.now other.now)
            (spec.product self.now other.now) result }
    {
        let terms = multiply(alloc, &self.terms, &other.terms)?;
        Ok(Poly { terms })
    }

    /// The polynomial times a number. The limit is `Coefficient` at the greatest monomial whose coefficient times the
    /// number is out of range, with the coefficient and the number.
    pub fn scale(&self, alloc: Global, by: Coef) -> Result<Poly, PolyStop>
        ensures { IsAnswer (scale_limit by self.now) (scaled by self.now) result }
    {
        let terms = multiple(alloc, &self.terms, by)?;
        Ok(Poly { terms })
    }

    /// The polynomial divided by the greatest common divisor of its coefficients, with a positive leading coefficient, and
    /// whether the leading coefficient was negative. The polynomial 0 stays as it is.
    pub fn primitive(&self, alloc: Global) -> Result<(Poly, bool), AllocError>
        ensures exact { IfOk result (λ r. (r.0 ≡ primitive self.now)
            × (r.1 ≡ leads_negative self.now)) }
        ensures multiple { IfOk result (λ r. IsMultiple self.now r.0 r.1) }
    {
        if self.terms.is_empty() {
            let terms = Vec::new(alloc);
            return Ok((Poly { terms }, false));
        }
        let is_negative = leads_negative(&self.terms);
        let divisor = negated_if(is_negative, content(&self.terms));
        let terms = quotients(alloc, &self.terms, divisor)?;
        Ok((Poly { terms }, is_negative))
    }

    /// The same of a polynomial that is no longer needed: one that is primitive already is handed back.
    pub fn into_primitive(self, alloc: Global) -> Result<(Poly, bool), AllocError>
        ensures exact { IfOk result (λ r. (r.0 ≡ primitive self) × (r.1 ≡ leads_negative self)) }
        ensures multiple { IfOk result (λ r. IsMultiple self r.0 r.1) }
    {
        if is_primitive(&self.terms) {
            return Ok((self, false));
        }
        self.primitive(alloc)
    }

    /// The derivative by a variable. The limit is `Coefficient` at the greatest monomial whose coefficient times the
    /// exponent of the variable is out of range, with the coefficient and the exponent.
    pub fn derivative(&self, alloc: Global, var: Var) -> Result<Poly, PolyStop>
        ensures { IsAnswer (derivative_limit var.0 self.now) (derivative var.0 self.now) result }
    {
        let terms = derivative(alloc, &self.terms, var)?;
        Ok(Poly { terms })
    }

    /// The negative.
    pub fn neg(&self, alloc: Global) -> Result<Poly, AllocError>
        ensures { IfOk result (λ p. p ≡ spec.negative self.now) }
    {
        let mut terms = Vec::with_capacity(alloc, self.terms.len())?;
        for term in &self.terms {
            terms.push(Term {
                monomial: term.monomial.copy(alloc)?,
                coef: term.coef.neg(),
            })?;
        }
        Ok(Poly { terms })
    }

    /// The greatest exponent of a variable, 0 where it does not occur.
    pub fn degree_in(&self, var: Var) -> u32
        ensures degree { result ≡ degree_in var.0 self.now }
        ensures canonical { spec.IsPolynomial self.now }
    {
        let mut degree = 0;
        for term in &self.terms {
            degree = degree.max(term.monomial.exponent_of(var));
        }
        degree
    }

    /// The coefficient of a power of a variable: the terms that have that power, without the variable.
    pub fn coefficient_in(&self, alloc: Global, var: Var, exponent: u32) -> Result<Poly, AllocError>
        ensures part { IfOk result (λ p. p ≡ coefficient_in var.0 exponent self.now) }
        ensures canonical { spec.IsPolynomial self.now }
    {
        let terms = part(alloc, &self.terms, var, exponent)?;
        Ok(Poly { terms })
    }

    /// The coefficients of the second, the first and the zeroth power of a variable, whose degree is at most 2. The clause
    /// `canonical` is there for the values: no monomial has a variable twice, so the coefficients give the polynomial's values.
    pub fn coeffs_in(&self, alloc: Global, var: Var) -> Result<[Poly; 3], AllocError>
        requires { degree_in var.0 self.now ≤ 2 }
        ensures parts { IfOk result (λ c. c ≡ coefficient_in var.0 2 self.now
            ∷ coefficient_in var.0 1 self.now
            ∷ coefficient_in var.0 0 self.now ∷ []) }
        ensures canonical { spec.IsPolynomial self.now }
    {
        let square = self.coefficient_in(alloc, var, 2)?;
        let linear = self.coefficient_in(alloc, var, 1)?;
        let free = self.coefficient_in(alloc, var, 0)?;
        Ok([square, linear, free])
    }

    /// Whether the variable occurs in it.
    #[tactic(auto, using(crate::proofs::Occurring::occurs_in_some_is))]
    pub fn has(&self, var: Var) -> bool
        ensures exact { result ≡ occurs_in_some var.0 self.now }
        ensures occurs { IsTrue result ↔ OccursInSome var.0 self.now }
    {
        occurs_in_some(&self.terms, var)
    }

    /// The polynomial with the variable `to` in the place of `from`, where `from` occurs in it and `to` does not. Any other
    /// polynomial stays as it is.
    pub fn renamed(&self, alloc: Global, from: Var, to: Var) -> Result<Poly, AllocError>
        ensures { IfOk result (λ p. p ≡ renamed from to self.now) }
    {
        if !occurs_in_some(&self.terms, from) || occurs_in_some(&self.terms, to) {
            return self.copy(alloc);
        }
        let mut terms = renamed_terms(alloc, &self.terms, from, to)?;
        terms.sort()?;
        Ok(Poly { terms })
    }

    /// The terms, from the greatest monomial to the least.
    pub fn terms(&self) -> &[Term]
        ensures { map shown result.now ≡ self.now }
    {
        self.terms.as_slice()
    }

    /// Whether it is 0.
    pub fn is_zero(&self) -> bool
        ensures { result ≡ is_zero self.now }
    {
        self.terms.is_empty()
    }

    /// Whether it is a negative number.
    pub fn is_negative(&self) -> bool
        ensures { result ≡ is_negative self.now }
    {
        match self.terms.as_slice() {
            [term] if term.monomial.is_one() => term.coef.is_negative(),
            _ => false,
        }
    }

    /// The number that the polynomial is, or `None` where it has a variable.
    pub fn as_constant(&self) -> Option<Coef>
        ensures constant { IfSome result (λ c. self.now ≡ spec.constant c) }
        ensures other { IfNone result ((c : ℤ) → self.now ≢ spec.constant c) }
        ensures canonical { spec.IsPolynomial self.now }
    {
        match self.terms.as_slice() {
            [] => Some(Coef::zero()),
            [term] if term.monomial.is_one() => Some(term.coef),
            _ => None,
        }
    }

    /// The order of polynomials: at the first term where they differ the greater monomial comes first, and for one
    /// monomial the smaller coefficient. A polynomial that ends comes before those that go on.
    pub fn compare(&self, other: &Poly) -> Ordering
        ensures { result ≡ poly_cmp self.now other.now }
    {
        self.terms.as_slice().cmp(other.terms.as_slice())
    }
}

impl PartialEq for Poly {
    ghost eq = { poly_eq };

    ghost laws = { partial_equiv_from_equiv poly_eq_equiv };

    fn eq(&self, other: &Poly) -> bool {
        self.terms == other.terms
    }
}

impl Eq for Poly {
    ghost laws = { poly_eq_equiv };
}

impl Hash for Poly {
    ghost hash_input = { poly_fed };

    ghost respects_eq = { poly_fed_alike };

    fn hash<H: Hasher>(&self, state: &mut H) {
        self.terms.hash(state);
    }
}

impl Ord for Poly {
    ghost cmp = { poly_cmp };

    ghost total = { poly_total };

    ghost matches_partial_cmp = { λ _ _. refl };

    ghost matches_eq = { poly_ties };

    fn cmp(&self, other: &Poly) -> Ordering {
        self.compare(other)
    }
}

impl PartialOrd for Poly {
    ghost partial_cmp = { λ p q. Some (poly_cmp p q) };

    ghost laws = { po poly_total poly_ties };

    fn partial_cmp(&self, other: &Poly) -> Option<Ordering> {
        Some(self.cmp(other))
    }
}
