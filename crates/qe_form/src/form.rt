//! Atoms and formulas.

ghost use Rattle.std.specs.Prelude.{◌≡◌, IfOk};
ghost use Rattle.qe_form.specs.Tree.{tree, trees};

use crate::{OutOfMemory, Poly, Sequence, Signs, Var};
use std::alloc::Global;

/// The statement that the sign of a polynomial's value is in a set of signs.
#[derive(Drop)]
pub struct Atom {
    pub poly: Poly,
    pub signs: Signs,
}

/// Formulas in order, as the parts of an `And` or an `Or`.
pub type Forms = Sequence<Form>;

/// A formula. An `And` of no parts is true and an `Or` of none is false.
#[derive(Drop)]
pub enum Form {
    True,
    False,
    Atom(Atom),
    And(Forms),
    Or(Forms),
    Not(Box<Form>),
    Implies(Box<Form>, Box<Form>),
    Iff(Box<Form>, Box<Form>),
    /// There is a value of the variable at which the body is true.
    Ex(Var, Box<Form>),
    /// The body is true at each value of the variable.
    All(Var, Box<Form>),
}

impl Atom {
    /// The same atom in memory of its own. `Err` only where memory runs out.
    pub fn copy(&self, alloc: Global) -> Result<Atom, OutOfMemory>
        ensures { IfOk result (λ a. a ≡ self.now) }
    {
        Ok(Atom {
            poly: self.poly.copy(alloc)?,
            signs: self.signs,
        })
    }
}

impl Form {
    /// The same formula in memory of its own. `Err` only where memory runs out.
    #[cycle(copy)]
    pub fn copy(&self, alloc: Global) -> Result<Form, OutOfMemory>
        ensures { IfOk result (λ f. tree f ≡ tree self.now) }
    {
        match self {
            Form::True => Ok(Form::True),
            Form::False => Ok(Form::False),
            Form::Atom(atom) => Ok(Form::Atom(atom.copy(alloc)?)),
            Form::And(parts) => Ok(Form::And(copy_all(alloc, parts)?)),
            Form::Or(parts) => Ok(Form::Or(copy_all(alloc, parts)?)),
            Form::Not(inner) => Ok(Form::Not(Box::new(alloc, inner.copy(alloc)?)?)),
            Form::Implies(left, right) => Ok(Form::Implies(
                Box::new(alloc, left.copy(alloc)?)?,
                Box::new(alloc, right.copy(alloc)?)?,
            )),
            Form::Iff(left, right) => Ok(Form::Iff(
                Box::new(alloc, left.copy(alloc)?)?,
                Box::new(alloc, right.copy(alloc)?)?,
            )),
            Form::Ex(var, body) => Ok(Form::Ex(*var, Box::new(alloc, body.copy(alloc)?)?)),
            Form::All(var, body) => Ok(Form::All(*var, Box::new(alloc, body.copy(alloc)?)?)),
        }
    }
}

#[cycle(copy)]
fn copy_all(alloc: Global, forms: &Forms) -> Result<Forms, OutOfMemory>
    ensures { IfOk result (λ fs. trees fs ≡ trees forms.now) }
{
    let mut copies = Sequence::new(alloc);
    for form in forms.items() {
        copies.push(form.copy(alloc)?)?;
    }
    Ok(copies)
}
