//! The text of a polynomial.

ghost use Rattle.std.specs.Prelude.{◌≡◌, IfOk, map, unsigned_abs};
ghost use Rattle.qe_poly.specs.Rows.{shown};
ghost use Rattle.qe_print.specs.Polynomial.{Appends, name_of, power_text, factors_text, term_text, terms_text, polynomial_text};

use crate::OutOfMemory;
use qe_coef::Coef;
use qe_form::Names;
use qe_poly::{Monomial, Poly, Power, Term, Var};
use std::alloc::Global;
use std::fmt::Write;

/// The name of a variable, and no text where it has none.
pub fn name_of(names: &Names, var: Var) -> &str
    ensures { result.now ≡ name_of names.now var.0 }
{
    names.get(var).unwrap_or("")
}

/// Appends a power, as `x` or `x^3`.
fn push_power(out: &mut String, power: Power, names: &Names) -> Result<(), OutOfMemory>
    ensures { Appends result out.old out.new (power_text names.now power) }
{
    out.push_str(name_of(names, power.var))?;
    if power.exponent != 1 {
        write!(out, "^{}", power.exponent)?;
    }
    Ok(())
}

/// Appends each power with a `*` before it.
fn push_factors(out: &mut String, powers: &[Power], names: &Names) -> Result<(), OutOfMemory>
    ensures { Appends result out.old out.new (factors_text names.now powers.now) }
{
    for power in powers {
        out.push_str("*")?;
        push_power(out, *power, names)?;
    }
    Ok(())
}

/// Appends the magnitude of a coefficient and the powers of a monomial.
fn push_term(out: &mut String, term: &Term, names: &Names) -> Result<(), OutOfMemory>
    ensures { let magnitude = unsigned_abs term.now.coef in
        Appends result out.old out.new (term_text names.now magnitude term.now.monomial) }
{
    let magnitude = term.coef.magnitude().value();
    match term.monomial.powers().split_first() {
        None => write!(out, "{magnitude}"),
        Some((first, rest)) => {
            if magnitude != 1 {
                write!(out, "{magnitude}*")?;
            }
            push_power(out, *first, names)?;
            push_factors(out, rest, names)
        }
    }
}

/// Appends each term with ` + ` or ` - ` before it.
fn push_terms(out: &mut String, terms: &[Term], names: &Names) -> Result<(), OutOfMemory>
    ensures { Appends result out.old out.new (terms_text names.now (map shown terms.now)) }
{
    for term in terms {
        out.push_str(if term.coef.is_negative() {
            " - "
        } else {
            " + "
        })?;
        push_term(out, term, names)?;
    }
    Ok(())
}

/// Appends the text of a polynomial.
pub fn push_poly(out: &mut String, poly: &Poly, names: &Names) -> Result<(), OutOfMemory>
    ensures { Appends result out.old out.new (polynomial_text names.now poly.now) }
{
    match poly.terms().split_first() {
        None => out.push_str("0"),
        Some((first, rest)) => {
            if first.coef.is_negative() {
                out.push_str("-")?;
            }
            push_term(out, first, names)?;
            push_terms(out, rest, names)
        }
    }
}

/// The text of a polynomial, with names as they stand: its terms from the greatest monomial to the least, as in
/// `4*a*c - b^2`, and `0` for the zero polynomial. `Err` only where memory runs out.
pub fn poly_text(alloc: Global, poly: &Poly, names: &Names) -> Result<Vec<u8>, OutOfMemory>
    ensures { IfOk result (λ text. text.items ≡ polynomial_text names.now poly.now) }
{
    let mut out = String::new(alloc);
    push_poly(&mut out, poly, names)?;
    Ok(out.into_bytes())
}
