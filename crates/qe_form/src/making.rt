//! Small formulas, made of others.

ghost use Rattle.std.specs.Prelude.{◌≡◌, IfOk};
ghost use Rattle.qe_form.specs.Making as spec;
ghost use Rattle.qe_form.specs.Tree.{tree};

use crate::{Atom, Form, OutOfMemory, Poly, Sequence, Signs};
use std::alloc::Global;

impl Form {
    /// The formula stating that the polynomial's sign is in the set.
    pub fn atom(poly: Poly, signs: Signs) -> Form
        ensures { tree result ≡ spec.atomic poly signs }
    {
        Form::Atom(Atom { poly, signs })
    }

    /// The constant that is true, or false.
    pub fn constant(value: bool) -> Form
        ensures { tree result ≡ spec.constant value }
    {
        if value { Form::True } else { Form::False }
    }

    /// The `And` of two formulas. `Err` only where memory runs out.
    pub fn both(alloc: Global, left: Form, right: Form) -> Result<Form, OutOfMemory>
        ensures { IfOk result (λ f. tree f ≡ spec.both (tree left) (tree right)) }
    {
        let mut parts = Sequence::new(alloc);
        parts.push(left)?;
        parts.push(right)?;
        Ok(Form::And(parts))
    }

    /// The `Or` of two formulas. `Err` only where memory runs out.
    pub fn either(alloc: Global, left: Form, right: Form) -> Result<Form, OutOfMemory>
        ensures { IfOk result (λ f. tree f ≡ spec.either (tree left) (tree right)) }
    {
        let mut parts = Sequence::new(alloc);
        parts.push(left)?;
        parts.push(right)?;
        Ok(Form::Or(parts))
    }

    /// Whether it is the constant `True`.
    pub fn is_true(&self) -> bool
        ensures { result ≡ spec.is_true (tree self.now) }
    {
        match self {
            Form::True => true,
            _ => false,
        }
    }

    /// Whether it is the constant `False`.
    pub fn is_false(&self) -> bool
        ensures { result ≡ spec.is_false (tree self.now) }
    {
        match self {
            Form::False => true,
            _ => false,
        }
    }
}
