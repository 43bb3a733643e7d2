//! The text of a formula.

ghost use Rattle.std.specs.Prelude.{◌≡◌, ◌++◌, IfOk, true, codes};
ghost use Rattle.qe_form.specs.Signs.{bits};
ghost use Rattle.qe_form.specs.Tree.{tree, trees};
ghost use Rattle.qe_print.specs.Polynomial.{Appends, name_of};
ghost use Rattle.qe_print.specs.Formula.{relation_to_zero, atom_text, is_simple, part, is_single, list_text, formula_text, parts_text};

use crate::OutOfMemory;
use crate::polynomial::{name_of, push_poly};
use qe_form::{Atom, Form, Forms, Names, Signs, Var};
use std::alloc::Global;

/// The relation to 0 that a set of some signs, but not all, stands for.
fn relation_of(signs: Signs) -> &'static str
    ensures { result.now ≡ relation_to_zero (bits signs) }
{
    match signs.bits() {
        1 => " < 0",
        2 => " = 0",
        3 => " <= 0",
        4 => " > 0",
        5 => " <> 0",
        _ => " >= 0",
    }
}

/// Appends an atom: its polynomial and the relation to 0.
fn push_atom(out: &mut String, atom: &Atom, names: &Names) -> Result<(), OutOfMemory>
    ensures { Appends result out.old out.new (atom_text names.now atom.now) }
{
    match atom.signs.bits() {
        0 => out.push_str("false"),
        7 => out.push_str("true"),
        _ => {
            push_poly(out, &atom.poly, names)?;
            out.push_str(relation_of(atom.signs))
        }
    }
}

/// A constant or an atom, which stands in no brackets.
fn is_simple(form: &Form) -> bool
    ensures { result ≡ is_simple (tree form.now) }
{
    match form {
        Form::True | Form::False | Form::Atom(_) => true,
        _ => false,
    }
}

/// Appends a part: in brackets where it does not stand alone and is neither a constant nor an atom.
#[cycle(print)]
fn push_part(out: &mut String, form: &Form, names: &Names, alone: bool) -> Result<(), OutOfMemory>
    ensures { let text = formula_text names.now (tree form.now) in
        Appends result out.old out.new (part alone (tree form.now) text) }
{
    if alone || is_simple(form) {
        return push_form(out, form, names);
    }
    out.push_str("[")?;
    push_form(out, form, names)?;
    out.push_str("]")
}

/// Appends the parts of an `And` or an `Or` with the joint between them, and `none` where there are none.
#[cycle(print)]
fn push_parts(
    out: &mut String,
    forms: &Forms,
    names: &Names,
    joint: &str,
    none: &str,
) -> Result<(), OutOfMemory>
    ensures { let parts = trees forms.now in
        let text = parts_text names.now joint.now true (is_single parts) parts in
        Appends result out.old out.new (list_text none.now parts text) }
{
    let items = forms.items();
    if items.is_empty() {
        return out.push_str(none);
    }
    let alone = items.len() == 1;
    for (i, form) in items.iter().enumerate() {
        if i > 0 {
            out.push_str(joint)?;
        }
        push_part(out, form, names, alone)?;
    }
    Ok(())
}

/// Appends the text of a formula.
#[cycle(print)]
fn push_form(out: &mut String, form: &Form, names: &Names) -> Result<(), OutOfMemory>
    ensures { Appends result out.old out.new (formula_text names.now (tree form.now)) }
{
    match form {
        Form::True => out.push_str("true"),
        Form::False => out.push_str("false"),
        Form::Atom(atom) => push_atom(out, atom, names),
        Form::And(parts) => push_parts(out, parts, names, " and ", "true"),
        Form::Or(parts) => push_parts(out, parts, names, " or ", "false"),
        Form::Not(inner) => {
            out.push_str("not ")?;
            push_part(out, inner, names, false)
        }
        Form::Implies(left, right) => {
            push_part(out, left, names, false)?;
            out.push_str(" implies ")?;
            push_part(out, right, names, false)
        }
        Form::Iff(left, right) => {
            push_part(out, left, names, false)?;
            out.push_str(" iff ")?;
            push_part(out, right, names, false)
        }
        Form::Ex(var, body) => {
            push_binder(out, "ex ", *var, names)?;
            push_form(out, body, names)
        }
        Form::All(var, body) => {
            push_binder(out, "all ", *var, names)?;
            push_form(out, body, names)
        }
    }
}

/// Appends a quantifier's word, its variable's name, and `. `.
fn push_binder(out: &mut String, word: &str, var: Var, names: &Names) -> Result<(), OutOfMemory>
    ensures { Appends result out.old out.new (word.now ++ name_of names.now var.0 ++ codes ". ") }
{
    out.push_str(word)?;
    out.push_str(name_of(names, var))?;
    out.push_str(". ")
}

/// The text of a formula, with names as they stand. `Err` only where memory runs out.
pub fn form_text(alloc: Global, form: &Form, names: &Names) -> Result<Vec<u8>, OutOfMemory>
    ensures { IfOk result (λ text. text.items ≡ formula_text names.now (tree form.now)) }
{
    let mut out = String::new(alloc);
    push_form(&mut out, form, names)?;
    Ok(out.into_bytes())
}
