//! The negation of a formula.

ghost use Rattle.std.specs.Prelude.{◌≡◌, IfOk};
ghost use Rattle.qe_form.specs.Tree.{tree, trees};
ghost use Rattle.qe_form.specs.Negation.{negated, negated_each, Opposite};

use crate::{Atom, Form, Forms, OutOfMemory, Sequence};
use std::alloc::Global;

impl Form {
    /// The negation, moved to the atoms: constants change places, and so do And and Or; an atom has the complement of its
    /// signs. Any other formula stands under Not. `Err` only where memory runs out.
    #[cycle(negated)]
    pub fn negated(self, alloc: Global) -> Result<Form, OutOfMemory>
        ensures exact { IfOk result (λ f. tree f ≡ negated (tree self)) }
        ensures opposite { IfOk result (λ f. Opposite (tree self) (tree f)) }
    {
        match self {
            Form::True => Ok(Form::False),
            Form::False => Ok(Form::True),
            Form::Atom(atom) => Ok(Form::Atom(Atom {
                poly: atom.poly,
                signs: atom.signs.complement(),
            })),
            Form::And(parts) => Ok(Form::Or(negated_all(alloc, parts)?)),
            Form::Or(parts) => Ok(Form::And(negated_all(alloc, parts)?)),
            other @ (Form::Not(_)
            | Form::Implies(_, _)
            | Form::Iff(_, _)
            | Form::Ex(_, _)
            | Form::All(_, _)) => Ok(Form::Not(Box::new(alloc, other)?)),
        }
    }
}

#[cycle(negated)]
fn negated_all(alloc: Global, forms: Forms) -> Result<Forms, OutOfMemory>
    ensures { IfOk result (λ fs. trees fs ≡ negated_each (trees forms)) }
{
    let mut negatives = Sequence::new(alloc);
    for form in forms.into_vec() {
        negatives.push(form.negated(alloc)?)?;
    }
    Ok(negatives)
}
