//! The formula with a number, and its names.

ghost use Rattle.std.specs.Prelude.{◌≡◌, ◌<◌, ◌≤◌, ◌^◌, length, IfOk};
ghost use Rattle.qe_form.specs.Numbered.{IsWellNumbered};
ghost use Rattle.qe_form.specs.Tree.{tree};
ghost use Rattle.qe_gen.specs.Generated as spec;

use crate::linear::{X1, X2, X3, polynomial};
use crate::{Input, OutOfMemory};
use qe_form::{Form, Names, Sequence, Signs};
use std::alloc::Global;

/// The formula stating that the polynomial of an atom is at most 0.
fn atom(alloc: Global, number: u32, index: u32) -> Result<Form, OutOfMemory>
    requires number { number ≤ 999999 }
    requires index { index < 16 }
    ensures { IfOk result (λ f. tree f ≡ spec.atom number index) }
{
    let poly = polynomial(alloc, number, index)?;
    Ok(Form::atom(poly, Signs::LESS_OR_EQUAL))
}

/// The `Or` of two atoms.
fn clause(alloc: Global, number: u32, index: u32) -> Result<Form, OutOfMemory>
    requires number { number ≤ 999999 }
    requires index { index < 8 }
    ensures { IfOk result (λ f. tree f ≡ spec.clause number index) }
{
    let left = atom(alloc, number, 2 * index)?;
    let right = atom(alloc, number, 2 * index + 1)?;
    Form::either(alloc, left, right)
}

/// The `And` of the eight clauses.
fn matrix(alloc: Global, number: u32) -> Result<Form, OutOfMemory>
    requires { number ≤ 999999 }
    ensures { IfOk result (λ f. tree f ≡ spec.matrix number) }
{
    let mut clauses = Sequence::new(alloc);
    for index in 0..8 {
        clauses.push(clause(alloc, number, index)?)?;
    }
    Ok(Form::And(clauses))
}

/// The formula stating that the body is true at some values of `x1`, `x2` and `x3`.
fn exists(alloc: Global, body: Form) -> Result<Form, OutOfMemory>
    ensures { IfOk result (λ f. tree f ≡ spec.exists (tree body)) }
{
    let inner = Form::Ex(X3, Box::new(alloc, body)?);
    let middle = Form::Ex(X2, Box::new(alloc, inner)?);
    Ok(Form::Ex(X1, Box::new(alloc, middle)?))
}

/// The names of the four variables.
fn names(alloc: Global) -> Result<Names, OutOfMemory>
    ensures { IfOk result (λ names. names ≡ spec.input_names) }
{
    let mut names = Names::new(alloc);
    names.push(String::from_str(alloc, "a")?)?;
    names.push(String::from_str(alloc, "x1")?)?;
    names.push(String::from_str(alloc, "x2")?)?;
    names.push(String::from_str(alloc, "x3")?)?;
    Ok(names)
}

/// The input with a number of at most six digits. `Err` only where memory runs out.
pub fn make(alloc: Global, number: u32) -> Result<Input, OutOfMemory>
    requires { number ≤ 999999 }
    ensures exact { IfOk result (λ input.
        (tree input.form ≡ spec.input_form number) × (input.names ≡ spec.input_names)) }
    ensures well_numbered { IfOk result (λ input. IsWellNumbered (tree input.form) input.names) }
    ensures few { IfOk result (λ input. length input.names < 2 ^ 31) }
{
    let body = matrix(alloc, number)?;
    let form = exists(alloc, body)?;
    let names = names(alloc)?;
    Ok(Input { form, names })
}
