//! The order of formulas.

ghost use Rattle.std.specs.Prelude.{◌≡◌};
ghost use Rattle.qe_form.specs.Tree.{tree, trees};
ghost use Rattle.qe_form.specs.Order.{rank, atom_cmp, formula_cmp, formulas_cmp};

use crate::{Atom, Form, Forms};
use std::cmp::Ordering;

/// The place of its kind among the kinds.
pub fn rank(form: &Form) -> u8
    ensures { result ≡ rank (tree form.now) }
{
    match form {
        Form::True => 0,
        Form::False => 1,
        Form::Atom(_) => 2,
        Form::And(_) => 3,
        Form::Or(_) => 4,
        Form::Not(_) => 5,
        Form::Implies(_, _) => 6,
        Form::Iff(_, _) => 7,
        Form::Ex(_, _) => 8,
        Form::All(_, _) => 9,
    }
}

impl Atom {
    /// The order of atoms: by the polynomials, and then by the bits of the signs.
    pub fn compare(&self, other: &Atom) -> Ordering
        ensures { result ≡ atom_cmp self.now other.now }
    {
        let polynomials = self.poly.compare(&other.poly);
        polynomials.then(self.signs.bits().cmp(&other.signs.bits()))
    }
}

impl Form {
    /// The order of formulas. Kinds go in the order true, false, atom, and, or, not, implies, iff, ex, all; formulas of
    /// one kind by their content: atoms by polynomial and then by the bits of the signs, lists by the first part that
    /// differs, where a list that ends comes first, pairs the left first, quantifiers by the variable and then the body.
    #[cycle(compare)]
    pub fn compare(&self, other: &Form) -> Ordering
        ensures { result ≡ formula_cmp (tree self.now) (tree other.now) }
    {
        match (self, other) {
            (Form::Atom(left), Form::Atom(right)) => left.compare(right),
            (Form::And(left), Form::And(right)) | (Form::Or(left), Form::Or(right)) => {
                compare_all(left, right)
            }
            (Form::Not(left), Form::Not(right)) => left.compare(right),
            (Form::Implies(left, right), Form::Implies(first, second))
            | (Form::Iff(left, right), Form::Iff(first, second)) => {
                left.compare(first).then(right.compare(second))
            }
            (Form::Ex(var, left), Form::Ex(other, right))
            | (Form::All(var, left), Form::All(other, right)) => {
                var.cmp(other).then(left.compare(right))
            }
            _ => rank(self).cmp(&rank(other)),
        }
    }
}

#[cycle(compare)]
fn compare_all(left: &Forms, right: &Forms) -> Ordering
    ensures { result ≡ formulas_cmp (trees left.now) (trees right.now) }
{
    let forms = left.items();
    let others = right.items();
    for (i, form) in forms.iter().enumerate() {
        let Some(other) = others.get(i) else {
            return Ordering::Greater;
        };
        let parts = form.compare(other);
        if parts != Ordering::Equal {
            return parts;
        }
    }
    if forms.len() < others.len() {
        Ordering::Less
    } else {
        Ordering::Equal
    }
}
