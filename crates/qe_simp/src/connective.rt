//! And and Or as joins of parts, each the other's mirror image.

ghost use Rattle.std.specs.Prelude.{◌≡◌, ◌++◌, map, OnOk};
ghost use Rattle.qe_form.specs.Tree.{tree};
ghost use Rattle.qe_simp.specs.Simplified.{neutral, deciding, under, joined_signs, parts_in, decides};

use crate::OutOfMemory;
use qe_form::{Form, Sequence, Signs};

/// The bits of a set of all signs.
pub const ALL_SIGNS: u8 = 7;

/// And, or Or.
#[derive(Clone, Copy)]
pub enum Connective {
    Conjunction,
    Disjunction,
}

impl Connective {
    /// The constant that changes nothing among the parts.
    pub fn neutral(self) -> Form
        ensures { tree result ≡ neutral self }
    {
        match self {
            Connective::Conjunction => Form::True,
            Connective::Disjunction => Form::False,
        }
    }

    /// The constant that decides for the whole.
    pub fn deciding(self) -> Form
        ensures { tree result ≡ deciding self }
    {
        match self {
            Connective::Conjunction => Form::False,
            Connective::Disjunction => Form::True,
        }
    }

    /// The formulas under the connective.
    pub fn connected(self, parts: Vec<Form>) -> Form
        ensures { tree result ≡ under self (map tree parts.items) }
    {
        match self {
            Connective::Conjunction => Form::And(Sequence::from_vec(parts)),
            Connective::Disjunction => Form::Or(Sequence::from_vec(parts)),
        }
    }

    /// The signs that two atoms on one polynomial have together.
    pub fn joined_signs(self, left: Signs, right: Signs) -> Signs
        ensures { result ≡ joined_signs self left right }
    {
        match self {
            Connective::Conjunction => left.intersect(right),
            Connective::Disjunction => left.union(right),
        }
    }

    /// Whether a part decides for the whole: the deciding constant, or an atom that no sign, or
    /// each sign, fits.
    pub fn is_decided_by(self, part: &Form) -> bool
        ensures { result ≡ decides self (tree part.now) }
    {
        match self {
            Connective::Conjunction => is_never_true(part),
            Connective::Disjunction => is_always_true(part),
        }
    }

    /// Adds a formula to the parts: its own parts where it has this connective, nothing where it
    /// changes nothing.
    pub fn add_to(self, parts: &mut Vec<Form>, form: Form) -> Result<(), OutOfMemory>
        ensures { OnOk result (map tree parts.new.items ≡ map tree parts.old.items
            ++ parts_in self (tree form)) }
    {
        match self {
            Connective::Conjunction => add_conjuncts(parts, form),
            Connective::Disjunction => add_disjuncts(parts, form),
        }
    }
}

/// Whether a part is false, or an atom that no sign fits.
fn is_never_true(part: &Form) -> bool
    ensures { result ≡ decides Connective.Conjunction (tree part.now) }
{
    match part {
        Form::False => true,
        Form::Atom(atom) => atom.signs.bits() == 0,
        Form::True
        | Form::And(_)
        | Form::Or(_)
        | Form::Not(_)
        | Form::Implies(_, _)
        | Form::Iff(_, _)
        | Form::Ex(_, _)
        | Form::All(_, _) => false,
    }
}

/// Whether a part is true, or an atom that each sign fits.
fn is_always_true(part: &Form) -> bool
    ensures { result ≡ decides Connective.Disjunction (tree part.now) }
{
    match part {
        Form::True => true,
        Form::Atom(atom) => atom.signs.bits() == ALL_SIGNS,
        Form::False
        | Form::And(_)
        | Form::Or(_)
        | Form::Not(_)
        | Form::Implies(_, _)
        | Form::Iff(_, _)
        | Form::Ex(_, _)
        | Form::All(_, _) => false,
    }
}

/// Adds the parts of an And, nothing for true, and any other formula itself.
fn add_conjuncts(parts: &mut Vec<Form>, form: Form) -> Result<(), OutOfMemory>
    ensures { OnOk result (map tree parts.new.items ≡ map tree parts.old.items
        ++ parts_in Connective.Conjunction (tree form)) }
{
    match form {
        Form::True => Ok(()),
        Form::And(more) => {
            parts.append(&mut more.into_vec())?;
            Ok(())
        }
        other => {
            parts.push(other)?;
            Ok(())
        }
    }
}

/// Adds the parts of an Or, nothing for false, and any other formula itself.
fn add_disjuncts(parts: &mut Vec<Form>, form: Form) -> Result<(), OutOfMemory>
    ensures { OnOk result (map tree parts.new.items ≡ map tree parts.old.items
        ++ parts_in Connective.Disjunction (tree form)) }
{
    match form {
        Form::False => Ok(()),
        Form::Or(more) => {
            parts.append(&mut more.into_vec())?;
            Ok(())
        }
        other => {
            parts.push(other)?;
            Ok(())
        }
    }
}
