//! How many atoms a formula has, its degree in a variable, and whether a variable occurs in it.

ghost use Rattle.std.specs.Prelude.{◌≡◌, ◌≤◌, ◌+◌, ◌↔◌, IsTrue, min};
ghost use Rattle.qe_form.specs.Tree.{tree, trees};
ghost use Rattle.qe_form.specs.Measures.{count, count_each, degree, degree_of_some, occurs, occurs_in_one, Has};

use crate::{Form, Forms, Var};

/// Where counts of atoms stop: one more than a formula may have.
pub const MOST_COUNTED: u32 = 65_537;

/// The sum of two counts, which stops at 65,537.
pub fn count_sum(left: u32, right: u32) -> u32
    requires left_stops { left ≤ 65537 }
    requires right_stops { right ≤ 65537 }
    ensures { result ≡ min 65537 (left + right) }
{
    MOST_COUNTED.min(left + right)
}

impl Form {
    /// How many atoms, constants and quantifiers it has, each counted as one; 65,537 where it has more.
    #[cycle(atom_count)]
    pub fn atom_count(&self) -> u32
        ensures { result ≡ min 65537 (count (tree self.now)) }
    {
        match self {
            Form::True | Form::False | Form::Atom(_) => 1,
            Form::And(parts) | Form::Or(parts) => count_all(parts),
            Form::Not(inner) => inner.atom_count(),
            Form::Implies(left, right) | Form::Iff(left, right) => {
                count_sum(left.atom_count(), right.atom_count())
            }
            Form::Ex(_, body) | Form::All(_, body) => count_sum(1, body.atom_count()),
        }
    }

    /// The greatest degree of one of its polynomials in a variable, free or bound; 0 where there is none.
    #[cycle(degree_in)]
    pub fn degree_in(&self, var: Var) -> u32
        ensures { result ≡ degree var.0 (tree self.now) }
    {
        match self {
            Form::True | Form::False => 0,
            Form::Atom(atom) => atom.poly.degree_in(var),
            Form::And(parts) | Form::Or(parts) => degree_of_all(parts, var),
            Form::Not(inner) => inner.degree_in(var),
            Form::Implies(left, right) | Form::Iff(left, right) => {
                left.degree_in(var).max(right.degree_in(var))
            }
            Form::Ex(_, body) | Form::All(_, body) => body.degree_in(var),
        }
    }

    /// Whether a variable occurs in one of its polynomials, free or bound.
    #[tactic(auto, using(crate::proofs::Occurring::occurs_is_has))]
    pub fn has(&self, var: Var) -> bool
        ensures exact { result ≡ occurs var.0 (tree self.now) }
        ensures has { IsTrue result ↔ Has var.0 (tree self.now) }
    {
        occurs(self, var)
    }
}

#[cycle(atom_count)]
fn count_all(forms: &Forms) -> u32
    ensures { result ≡ min 65537 (count_each (trees forms.now)) }
{
    let mut count = 0;
    for form in forms.items() {
        count = count_sum(count, form.atom_count());
        if count == MOST_COUNTED {
            return count;
        }
    }
    count
}

#[cycle(degree_in)]
fn degree_of_all(forms: &Forms, var: Var) -> u32
    ensures { result ≡ degree_of_some var.0 (trees forms.now) }
{
    let mut degree = 0;
    for form in forms.items() {
        degree = degree.max(form.degree_in(var));
    }
    degree
}

#[cycle(occurs)]
fn occurs(form: &Form, var: Var) -> bool
    ensures { result ≡ occurs var.0 (tree form.now) }
{
    match form {
        Form::True | Form::False => false,
        Form::Atom(atom) => atom.poly.has(var),
        Form::And(parts) | Form::Or(parts) => occurs_in_one(parts, var),
        Form::Not(inner) => occurs(inner, var),
        Form::Implies(left, right) | Form::Iff(left, right) => {
            occurs(left, var) || occurs(right, var)
        }
        Form::Ex(_, body) | Form::All(_, body) => occurs(body, var),
    }
}

#[cycle(occurs)]
fn occurs_in_one(forms: &Forms, var: Var) -> bool
    ensures { result ≡ occurs_in_one var.0 (trees forms.now) }
{
    for form in forms.items() {
        if occurs(form, var) {
            return true;
        }
    }
    false
}
