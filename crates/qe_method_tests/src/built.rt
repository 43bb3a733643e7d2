//! Formulas by their text, polynomials and roots by their coefficients. The variables are `a`, `b`, `c` and `x`, numbered from 0.

ghost use Rattle.std.specs.Prelude.{IfOk};
ghost use Rattle.qe_form.specs.Numbered.{IsWellNumbered};
ghost use Rattle.qe_form.specs.Tree.{tree};

use qe_coef::Coef;
use qe_form::{Input, OutOfMemory, Signs};
use qe_poly::{Poly, PolyStop, Var};
use qe_read::read;
use qe_root::RootPoint;
use std::alloc::Global;

/// The greatest coefficient.
pub const MOST: i128 = i128::MAX;

/// The most bytes that are read.
const MOST_BYTES: usize = 1_048_576;

/// The variable that is eliminated.
pub const X: Var = Var(3);

/// The coefficients of `a`, `b` and `c`, and a number.
pub type Linear = [i128; 4];

/// The number 0.
pub const ZERO: Linear = [0, 0, 0, 0];

/// The number 1.
pub const ONE: Linear = [0, 0, 0, 1];

/// `a`
pub const A: Linear = [1, 0, 0, 0];

/// `b`
pub const B: Linear = [0, 1, 0, 0];

/// `c`
pub const C: Linear = [0, 0, 1, 0];

/// The bits of the signs of `<`.
pub const LESS: u8 = 1;

/// Those of `=`.
pub const EQUAL: u8 = 2;

/// Those of `<=`.
pub const AT_MOST: u8 = 3;

/// Those of `>`.
pub const MORE: u8 = 4;

/// Those of `<>`.
pub const NOT_EQUAL: u8 = 5;

/// Those of `>=`.
pub const AT_LEAST: u8 = 6;

/// The coefficient, which is in range.
pub fn coef(value: i128) -> Coef {
    Coef::of(value).unwrap_or(Coef::zero())
}

/// The sum with `value` times the variable.
pub fn with_term(alloc: Global, sum: &Poly, value: i128, var: u32) -> Result<Poly, PolyStop> {
    let term = Poly::power(alloc, Var(var), 1)?.scale(alloc, coef(value))?;
    sum.add(alloc, &term)
}

/// The polynomial with these coefficients.
pub fn linear(alloc: Global, numbers: Linear) -> Result<Poly, PolyStop> {
    let number = Poly::constant(alloc, coef(numbers[3]))?;
    let c = with_term(alloc, &number, numbers[2], 2)?;
    let b = with_term(alloc, &c, numbers[1], 1)?;
    with_term(alloc, &b, numbers[0], 0)
}

/// `value*x` with that sum of `a`, `b`, `c` and a number.
fn next(alloc: Global, value: &Poly, numbers: Linear) -> Result<Poly, PolyStop> {
    let product = value.mul(alloc, &Poly::power(alloc, X, 1)?)?;
    product.add(alloc, &linear(alloc, numbers)?)
}

/// The polynomial in `x` with the three coefficients.
pub fn quadratic(alloc: Global, coefficients: [Linear; 3]) -> Result<Poly, PolyStop> {
    let square = linear(alloc, coefficients[0])?;
    let line = next(alloc, &square, coefficients[1])?;
    next(alloc, &line, coefficients[2])
}

fn two(alloc: Global, first: Linear, second: Linear) -> Result<(Poly, Poly), PolyStop> {
    let first = linear(alloc, first)?;
    Ok((first, linear(alloc, second)?))
}

/// The root `(p + q*sqrt(r))/s`.
pub fn root(alloc: Global, parts: [Linear; 4]) -> Result<RootPoint, PolyStop> {
    let (p, q) = two(alloc, parts[0], parts[1])?;
    let (r, s) = two(alloc, parts[2], parts[3])?;
    Ok(RootPoint { p, q, r, s })
}

/// The signs of these bits.
pub fn signs_of(bits: u8) -> Signs {
    Signs::of(bits % 2 == 1, bits / 2 % 2 == 1, bits / 4 % 2 == 1)
}

/// The formula of a text without a fault, with its names.
pub fn read_input(alloc: Global, text: &str) -> Result<Input, OutOfMemory>
    ensures { IfOk result (λ input. IsWellNumbered (tree input.form) input.names) }
{
    if text.len() > MOST_BYTES {
        return Err(OutOfMemory);
    }
    match read(alloc, text.as_bytes()) {
        Ok(input) => Ok(input),
        Err(_) => Err(OutOfMemory),
    }
}
