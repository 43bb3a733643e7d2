//! The values of terms.

ghost use Rattle.std.specs.Prelude.{◌≡◌, Option, pos, map};
ghost use Rattle.qe_poly.specs.declared.limit.PolyLimit.{PolyLimit};
ghost use Rattle.qe_halt.specs.Outcome.{IsAnswer};
ghost use Rattle.qe_poly.specs.Polynomial.{Polynomial};
ghost use Rattle.qe_syntax.specs.Code.{term_of, addend_of, addends_of, factor_of, factors_of};
ghost use Rattle.qe_read.specs.Names.{variable as variable_of};
ghost use Rattle.qe_read.specs.Value.{IsValue, at, added, subtracted, multiplied, raised, literal, as_name, value as value_of, summed, factored};

use crate::scope::{Binder, Context};
use qe_coef::Coef;
use qe_halt::Halt;
use qe_poly::{Poly, PolyLimit, PolyStop};
use qe_syntax::{Addend, Factor, Name, Term};
use std::alloc::Global;

/// A limit of polynomials that an operation met.
#[derive(Clone, Copy, Debug, PartialEq, Eq)]
pub struct Met {
    /// The offset of the operator.
    pub place: u32,
    pub limit: PolyLimit,
}

/// Why a term has no value: the first limit that was met, or out of memory.
pub type ValueStop = Halt<Met>;

/// The coefficient of a number, which is at most `2^127 - 1` in a text.
fn literal(number: u128) -> Coef
    ensures { result ≡ pos (literal number) }
{
    match Coef::of(number.min(i128::MAX as u128) as i128) {
        Some(coef) => coef,
        None => unreachable!(),
    }
}

/// What an operation gave, with the offset of its operator where it met a limit.
fn placed(place: u32, outcome: Result<Poly, PolyStop>) -> Result<Poly, ValueStop>
    ensures { (limit : Option PolyLimit) (exact : Polynomial)
        → IsAnswer limit exact outcome → IsValue (at place limit exact) result }
{
    match outcome {
        Ok(poly) => Ok(poly),
        Err(PolyStop::Limit(limit)) => Err(ValueStop::Limit(Met { place, limit })),
        Err(PolyStop::OutOfMemory) => Err(ValueStop::OutOfMemory),
    }
}

fn add(alloc: Global, place: u32, left: &Poly, right: &Poly) -> Result<Poly, ValueStop>
    ensures { IsValue (added place left.now right.now) result }
{
    placed(place, left.add(alloc, right))
}

pub fn subtract(alloc: Global, place: u32, left: &Poly, right: &Poly) -> Result<Poly, ValueStop>
    ensures { IsValue (subtracted place left.now right.now) result }
{
    placed(place, left.sub(alloc, right))
}

fn multiply(alloc: Global, place: u32, left: &Poly, right: &Poly) -> Result<Poly, ValueStop>
    ensures { IsValue (multiplied place left.now right.now) result }
{
    placed(place, left.mul(alloc, right))
}

/// The base multiplied by itself from left to right, or 1 for the exponent 0.
fn raise(alloc: Global, place: u32, base: &Poly, exponent: u16) -> Result<Poly, ValueStop>
    ensures { IsValue (raised place exponent base.now) result }
{
    if exponent == 0 {
        return Ok(Poly::constant(alloc, literal(1))?);
    }
    let mut power = base.copy(alloc)?;
    for _turn in 1..exponent {
        power = multiply(alloc, place, &power, base)?;
    }
    Ok(power)
}

/// The name that a term is.
fn as_name(term: &Term) -> Option<Name>
    ensures { result ≡ as_name (term_of term.now) }
{
    match term {
        Term::Name(name) => Some(*name),
        _ => None,
    }
}

impl Context<'_, '_> {
    /// The polynomial of a term, or the first limit that an operation meets.
    #[cycle(value)]
    pub fn value(&self, enclosing: &[Binder], term: &Term) -> Result<Poly, ValueStop>
        ensures { let var = variable_of self.now.text.now self.now.free.now enclosing.now in
            IsValue (value_of var (term_of term.now)) result }
    {
        match term {
            Term::Number(number) => Ok(Poly::constant(self.alloc, literal(*number))?),
            Term::Name(name) => Ok(Poly::power(self.alloc, self.variable(enclosing, *name), 1)?),
            Term::Negative(inner) => Ok(self.value(enclosing, inner)?.neg(self.alloc)?),
            Term::Power(base, place, exponent) => match as_name(base) {
                Some(name) => Ok(Poly::power(
                    self.alloc,
                    self.variable(enclosing, name),
                    *exponent as u32,
                )?),
                None => raise(self.alloc, *place, &self.value(enclosing, base)?, *exponent),
            },
            Term::Sum(first, addends) => {
                let first = self.value(enclosing, first)?;
                self.sum(enclosing, first, addends.items())
            }
            Term::Product(first, factors) => {
                let first = self.value(enclosing, first)?;
                self.product(enclosing, first, factors.items())
            }
        }
    }

    /// With the later summands, from left to right.
    #[cycle(value)]
    fn sum(&self, enclosing: &[Binder], first: Poly, addends: &[Addend]) -> Result<Poly, ValueStop>
        ensures { let var = variable_of self.now.text.now self.now.free.now enclosing.now in
            IsValue (summed var (addends_of (map addend_of addends.now)) first) result }
    {
        let mut sum = first;
        for addend in addends {
            let term = self.value(enclosing, &addend.term)?;
            sum = if addend.minus {
                subtract(self.alloc, addend.place, &sum, &term)?
            } else {
                add(self.alloc, addend.place, &sum, &term)?
            };
        }
        Ok(sum)
    }

    /// With the later factors, from left to right.
    #[cycle(value)]
    fn product(
        &self,
        enclosing: &[Binder],
        first: Poly,
        factors: &[Factor],
    ) -> Result<Poly, ValueStop>
        ensures { let var = variable_of self.now.text.now self.now.free.now enclosing.now in
            IsValue (factored var (factors_of (map factor_of factors.now)) first) result }
    {
        let mut product = first;
        for factor in factors {
            let term = self.value(enclosing, &factor.term)?;
            product = multiply(self.alloc, factor.place, &product, &term)?;
        }
        Ok(product)
    }
}
