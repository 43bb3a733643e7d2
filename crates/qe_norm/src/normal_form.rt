//! The prenex form of a formula.

ghost use Rattle.std.specs.Prelude.{◌≡◌, ◌≤◌, ◌<◌, ◌^◌, length, IfOk};
ghost use Rattle.qe_form.specs.Tree.{tree};
ghost use Rattle.qe_form.specs.Measures.{count};
ghost use Rattle.qe_form.specs.Same.{Same};
ghost use Rattle.qe_form.specs.Plain.{IsPlain};
ghost use Rattle.qe_form.specs.Numbered as input_names;
ghost use Rattle.qe_form.specs.Preserved.{Preserves, HasDecidedCore};
ghost use Rattle.qe_form.specs.Holds.{HoldAlike};
ghost use Rattle.qe_norm.specs.Prenex.{Answers, IsPrenexOf, IsWellNumbered, stands_for};

use crate::OutOfMemory;
use crate::blocks::{NormStop, Prenex};
use crate::group::group;
use crate::polarity::Polarity;
use crate::size::size;
use crate::walk::{Walk, open};
use qe_form::{Form, Input, MOST_COUNTED, Names};
use std::alloc::Global;

/// The prenex form, built in one walk.
fn prenex(alloc: Global, form: &Form, names: Names) -> Result<Prenex, OutOfMemory>
    ensures { IfOk result (λ p. IsPrenexOf (tree form.now) names p) }
{
    let mut walk = Walk::new(alloc, names)?;
    let matrix = open(alloc, &mut walk, form, Polarity::Positive)?;
    let blocks = group(alloc, &walk.prefix)?;
    Ok(Prenex {
        blocks,
        matrix,
        names: walk.names,
    })
}

/// The prenex form. Implications and equivalences are opened and negations move to the atoms; the
/// quantifiers, in the order of the text, form the blocks, and the rest is the matrix. The
/// quantifiers of the parts of an equivalence come twice: a copy gets the next number that has no
/// name, and the name of its variable again.
///
/// `TooLarge` comes where the prenex form has more than 65,536 atoms, constants and quantifiers; it
/// is not built then. The variables of the input are well numbered, and fewer than 2^31.
///
/// The prenex form holds exactly where the input does. It is true where the input is, and false
/// where that is false. The two are the same, both ways, where the formula behind the outer
/// quantifiers and negations is true or false at each point, as it is with excluded middle.
pub fn normal(alloc: Global, input: Input) -> Result<Prenex, NormStop>
    requires numbered { input_names.IsWellNumbered (tree input.form) input.names }
    requires few { length input.names < 2 ^ 31 }
    ensures exact { Answers (tree input.form) input.names result }
    ensures keeps { IfOk result (λ p. Preserves (tree input.form) (stands_for p)) }
    ensures same { IfOk result (λ p. HasDecidedCore (tree input.form)
        → Same (tree input.form) (stands_for p)) }
    ensures holds { IfOk result (λ p. HoldAlike (tree input.form) (stands_for p)) }
    ensures well_numbered { IfOk result (λ p. IsWellNumbered p) }
    ensures plain { IfOk result (λ p. IsPlain (tree p.matrix)) }
    ensures small { IfOk result (λ p. count (tree p.matrix) ≤ 65536) }
{
    let Input { form, names } = input;
    if size(&form) == MOST_COUNTED {
        return Err(NormStop::TooLarge(MOST_COUNTED));
    }
    Ok(prenex(alloc, &form, names)?)
}
