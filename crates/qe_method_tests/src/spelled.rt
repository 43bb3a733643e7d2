//! Texts of polynomials and formulas over `a`, `b`, `c` and `x`.

use qe_form::{Form, Forms, OutOfMemory, Signs};
use qe_poly::{Poly, PolyStop, Term, Var};
use std::fmt::Write;

/// A term without its sign, as `2*a^2*b`.
fn push_term(out: &mut String, term: &Term) -> Result<(), OutOfMemory> {
    let magnitude = term.coef.magnitude().value();
    let powers = term.monomial.powers();
    let mut before = "";
    if magnitude != 1 || powers.is_empty() {
        write!(out, "{magnitude}")?;
        before = "*";
    }
    for power in powers {
        out.push_str(before)?;
        out.push_str(name(power.var))?;
        if power.exponent != 1 {
            write!(out, "^{}", power.exponent)?;
        }
        before = "*";
    }
    Ok(())
}

fn name(var: Var) -> &'static str {
    match var.0 {
        0 => "a",
        1 => "b",
        2 => "c",
        _ => "x",
    }
}

/// A polynomial, as `2*a^2*b - 1`.
pub fn push_poly(out: &mut String, poly: &Poly) -> Result<(), OutOfMemory> {
    let mut signs = ("-", "");
    for term in poly.terms() {
        out.push_str(if term.coef.value() < 0 {
            signs.0
        } else {
            signs.1
        })?;
        push_term(out, term)?;
        signs = (" - ", " + ");
    }
    if poly.terms().is_empty() {
        out.push_str("0")?;
    }
    Ok(())
}

fn relation(signs: Signs) -> &'static str {
    match signs.bits() {
        1 => " < 0",
        2 => " = 0",
        3 => " <= 0",
        4 => " > 0",
        5 => " <> 0",
        6 => " >= 0",
        _ => " ?",
    }
}

/// A formula, in which each list of parts stands in brackets.
#[cycle(push_form)]
pub fn push_form(out: &mut String, form: &Form) -> Result<(), OutOfMemory> {
    match form {
        Form::True => out.push_str("true"),
        Form::False => out.push_str("false"),
        Form::Atom(atom) => {
            push_poly(out, &atom.poly)?;
            out.push_str(relation(atom.signs))
        }
        Form::And(parts) => push_parts(out, parts, " and "),
        Form::Or(parts) => push_parts(out, parts, " or "),
        _ => out.push_str("?"),
    }
}

#[cycle(push_form)]
fn push_parts(out: &mut String, parts: &Forms, word: &str) -> Result<(), OutOfMemory> {
    for (place, part) in parts.items().iter().enumerate() {
        out.push_str(if place == 0 { "[" } else { word })?;
        push_form(out, part)?;
    }
    out.push_str("]")
}

/// Whether it is this text.
pub fn is_text(found: Result<String, PolyStop>, want: &str) -> bool {
    match found {
        Ok(text) => text.as_str() == want,
        Err(_) => false,
    }
}
