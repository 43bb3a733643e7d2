//! The names that are free in a text, at each place where they occur.

ghost use Rattle.std.specs.Prelude.{◌≡◌, ◌++◌, ◌∷◌, [], map, OnOk};
ghost use Rattle.qe_syntax.specs.Code.{term_of, addend_of, addends_of, factor_of, factors_of, tree_of, as_parts};
ghost use Rattle.qe_read.specs.FreeNames.{is_bound, free_in, free_in_addends, free_in_factors, free_names, free_names_each};

use crate::OutOfMemory;
use crate::scope::letters;
use qe_syntax::{Addend, Factor, Formula, Name, Term};

/// Whether one of the names around has the same letters.
fn is_bound(text: &[u8], around: &[Name], name: Name) -> bool
    ensures { result ≡ is_bound text.now around.now name }
{
    around
        .iter()
        .any(|other| letters(text, *other) == letters(text, name))
}

/// Appends the names in a term that are not bound, in the order of the text.
#[cycle(term)]
fn push_term(
    names: &mut Vec<Name>,
    text: &[u8],
    around: &[Name],
    term: &Term,
) -> Result<(), OutOfMemory>
    ensures { let free = free_in text.now around.now (term_of term.now) in
        OnOk result (names.new.items ≡ names.old.items ++ free) }
{
    match term {
        Term::Number(_) => Ok(()),
        Term::Name(name) => {
            if !is_bound(text, around, *name) {
                names.push(*name)?;
            }
            Ok(())
        }
        Term::Negative(inner) => push_term(names, text, around, inner),
        Term::Power(base, _, _) => push_term(names, text, around, base),
        Term::Sum(first, addends) => {
            push_term(names, text, around, first)?;
            push_addends(names, text, around, addends.items())
        }
        Term::Product(first, factors) => {
            push_term(names, text, around, first)?;
            push_factors(names, text, around, factors.items())
        }
    }
}

#[cycle(term)]
fn push_addends(
    names: &mut Vec<Name>,
    text: &[u8],
    around: &[Name],
    addends: &[Addend],
) -> Result<(), OutOfMemory>
    ensures { let free = free_in_addends text.now around.now
        (addends_of (map addend_of addends.now)) in
        OnOk result (names.new.items ≡ names.old.items ++ free) }
{
    for addend in addends {
        push_term(names, text, around, &addend.term)?;
    }
    Ok(())
}

#[cycle(term)]
fn push_factors(
    names: &mut Vec<Name>,
    text: &[u8],
    around: &[Name],
    factors: &[Factor],
) -> Result<(), OutOfMemory>
    ensures { let free = free_in_factors text.now around.now
        (factors_of (map factor_of factors.now)) in
        OnOk result (names.new.items ≡ names.old.items ++ free) }
{
    for factor in factors {
        push_term(names, text, around, &factor.term)?;
    }
    Ok(())
}

/// Appends the names that are free in a formula, in the order of the text.
/// `around` are the names bound around it, and are left as they were.
#[cycle(formula)]
pub fn push_free(
    names: &mut Vec<Name>,
    text: &[u8],
    around: &mut Vec<Name>,
    formula: &Formula,
) -> Result<(), OutOfMemory>
    ensures names { let free = free_names text.now around.old.items (tree_of formula.now) in
        OnOk result (names.new.items ≡ names.old.items ++ free) }
    ensures around { OnOk result (around.new.items ≡ around.old.items) }
{
    match formula {
        Formula::True | Formula::False => Ok(()),
        Formula::Atom(comparison) => {
            push_term(names, text, around, &comparison.left)?;
            push_term(names, text, around, &comparison.right)
        }
        Formula::And(parts) | Formula::Or(parts) => {
            push_free_each(names, text, around, parts.items())
        }
        Formula::Not(inner) => push_free(names, text, around, inner),
        Formula::Implies(left, right) | Formula::Iff(left, right) => {
            push_free(names, text, around, left)?;
            push_free(names, text, around, right)
        }
        Formula::Ex(name, body) | Formula::All(name, body) => {
            around.push(*name)?;
            push_free(names, text, around, body)?;
            around.pop();
            Ok(())
        }
    }
}

#[cycle(formula)]
fn push_free_each(
    names: &mut Vec<Name>,
    text: &[u8],
    around: &mut Vec<Name>,
    formulas: &[Formula],
) -> Result<(), OutOfMemory>
    ensures names { let parts = as_parts (map tree_of formulas.now) in
        let free = free_names_each text.now around.old.items parts in
        OnOk result (names.new.items ≡ names.old.items ++ free) }
    ensures around { OnOk result (around.new.items ≡ around.old.items) }
{
    for formula in formulas {
        push_free(names, text, around, formula)?;
    }
    Ok(())
}
