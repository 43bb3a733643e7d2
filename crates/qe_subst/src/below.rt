//! Below all numbers, and wherever a polynomial is zero only if it is zero everywhere.

ghost use Rattle.std.specs.Prelude.{◌≡◌, ◌≤◌, ◌<◌, IfOk};
ghost use Rattle.qe_poly.specs.Coefficients.{degree_in, coefficient_in};
ghost use Rattle.qe_form.specs.Making as making;
ghost use Rattle.qe_form.specs.Tree.{tree, trees};
ghost use Rattle.qe_subst.specs.Substituted as spec;

use crate::{Form, Forms, OutOfMemory, Poly, Sequence, Signs, Var};
use std::alloc::Global;

/// The atom stating that the coefficient of a power of the variable has a sign of the set.
fn coefficient(
    alloc: Global,
    x: Var,
    poly: &Poly,
    exponent: u32,
    signs: Signs,
) -> Result<Form, OutOfMemory>
    ensures { IfOk result
        (λ f. tree f ≡ making.atomic (coefficient_in x.0 exponent poly.now) signs) }
{
    Ok(Form::atom(poly.coefficient_in(alloc, x, exponent)?, signs))
}

/// An atom on each coefficient of a polynomial of degree one or two, that of the highest power
/// first.
fn each_coefficient(
    alloc: Global,
    x: Var,
    poly: &Poly,
    degree: u32,
    signs: Signs,
) -> Result<Forms, OutOfMemory>
    requires positive { 0 < degree }
    requires at_most { degree ≤ 2 }
    ensures { IfOk result (λ fs. trees fs ≡ spec.each_coefficient x.0 degree poly.now signs) }
{
    let mut parts = Sequence::new(alloc);
    if degree == 2 {
        parts.push(coefficient(alloc, x, poly, 2, signs)?)?;
    }
    parts.push(coefficient(alloc, x, poly, 1, signs)?)?;
    parts.push(coefficient(alloc, x, poly, 0, signs)?)?;
    Ok(parts)
}

/// The formula stating for `=` that each coefficient is zero, and for `<>` that some is not.
pub fn everywhere(
    alloc: Global,
    x: Var,
    poly: &Poly,
    degree: u32,
    signs: Signs,
) -> Result<Form, OutOfMemory>
    requires degree { degree ≡ degree_in x.0 poly.now }
    requires positive { 0 < degree }
    requires at_most { degree ≤ 2 }
    ensures { IfOk result (λ f. tree f ≡ spec.everywhere x.0 poly.now signs) }
{
    let parts = each_coefficient(alloc, x, poly, degree, signs)?;
    if signs.has_zero() {
        Ok(Form::And(parts))
    } else {
        Ok(Form::Or(parts))
    }
}

/// The formula stating that `b*x + c` has a sign of the set below all numbers: `b` has the opposite
/// of one, or it is zero and `c` has one.
fn line_below(alloc: Global, x: Var, poly: &Poly, signs: Signs) -> Result<Form, OutOfMemory>
    ensures { IfOk result (λ f. tree f ≡ spec.line_below x.0 poly.now signs) }
{
    let opposite = coefficient(alloc, x, poly, 1, signs.strict().mirror())?;
    let zero = coefficient(alloc, x, poly, 1, Signs::EQUAL)?;
    let constant = coefficient(alloc, x, poly, 0, signs)?;
    let flat = Form::both(alloc, zero, constant)?;
    Form::either(alloc, opposite, flat)
}

/// The formula stating that `a` and `b` are zero, and `c` has a sign of the set.
fn constant_below(alloc: Global, x: Var, poly: &Poly, signs: Signs) -> Result<Form, OutOfMemory>
    ensures { IfOk result (λ f. tree f ≡ spec.constant_below x.0 poly.now signs) }
{
    let mut parts = Sequence::new(alloc);
    parts.push(coefficient(alloc, x, poly, 2, Signs::EQUAL)?)?;
    parts.push(coefficient(alloc, x, poly, 1, Signs::EQUAL)?)?;
    parts.push(coefficient(alloc, x, poly, 0, signs)?)?;
    Ok(Form::And(parts))
}

/// The formula stating that `a*x^2 + b*x + c` has a sign of the set below all numbers: `a` has one,
/// or it is zero and `b` has the opposite of one, or both are zero and `c` has one.
fn quadratic_below(alloc: Global, x: Var, poly: &Poly, signs: Signs) -> Result<Form, OutOfMemory>
    ensures { IfOk result (λ f. tree f ≡ spec.quadratic_below x.0 poly.now signs) }
{
    let zero = coefficient(alloc, x, poly, 2, Signs::EQUAL)?;
    let opposite = coefficient(alloc, x, poly, 1, signs.strict().mirror())?;
    let mut parts = Sequence::new(alloc);
    parts.push(coefficient(alloc, x, poly, 2, signs.strict())?)?;
    parts.push(Form::both(alloc, zero, opposite)?)?;
    parts.push(constant_below(alloc, x, poly, signs)?)?;
    Ok(Form::Or(parts))
}

/// The formula stating that the polynomial, of degree one or two, has a sign of the set below all
/// numbers.
pub fn below(
    alloc: Global,
    x: Var,
    poly: &Poly,
    degree: u32,
    signs: Signs,
) -> Result<Form, OutOfMemory>
    requires degree { degree ≡ degree_in x.0 poly.now }
    requires positive { 0 < degree }
    requires at_most { degree ≤ 2 }
    ensures { IfOk result (λ f. tree f ≡ spec.at_minus_infinity x.0 poly.now signs) }
{
    if signs.is_even() {
        everywhere(alloc, x, poly, degree, signs)
    } else if degree == 1 {
        line_below(alloc, x, poly, signs)
    } else {
        quadratic_below(alloc, x, poly, signs)
    }
}
