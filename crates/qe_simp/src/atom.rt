//! The simplified form of an atom.

ghost use Rattle.std.specs.Prelude.{◌≡◌, cond, IfOk};
ghost use Rattle.qe_ring.specs.Sign.{int_sign};
ghost use Rattle.qe_form.specs.Tree.{tree};
ghost use Rattle.qe_form.specs.Signs.{mirror};
ghost use Rattle.qe_form.specs.Truth.{has_sign};
ghost use Rattle.qe_simp.specs.Shape.{IsCanonicalAtom};
ghost use Rattle.qe_simp.specs.Simplified.{simplified_atom};

use crate::OutOfMemory;
use crate::connective::ALL_SIGNS;
use qe_coef::Coef;
use qe_form::{Atom, Form, Signs};
use std::alloc::Global;
use std::cmp::Ordering;

/// Whether a set of signs has the sign of a number.
fn has_sign_of(signs: Signs, value: Coef) -> bool
    ensures { result ≡ has_sign signs (int_sign value) }
{
    match value.value().cmp(&0) {
        Ordering::Less => signs.has_minus(),
        Ordering::Equal => signs.has_zero(),
        Ordering::Greater => signs.has_plus(),
    }
}

/// The signs, or those of the negatives where it is told so.
fn mirrored_if(is_negated: bool, signs: Signs) -> Signs
    ensures { result ≡ cond is_negated (mirror signs) signs }
{
    if is_negated { signs.mirror() } else { signs }
}

/// The simplified form of an atom: true or false on a number, false with no sign, true with all of
/// them; else the atom on the primitive polynomial, with the signs of the negatives where that was
/// negated.
pub fn simplify_atom(alloc: Global, atom: Atom) -> Result<Form, OutOfMemory>
    ensures exact { IfOk result (λ f. tree f ≡ simplified_atom atom) }
    ensures canonical { IfOk result (λ _. IsCanonicalAtom atom) }
{
    if let Some(value) = atom.poly.as_constant() {
        return Ok(Form::constant(has_sign_of(atom.signs, value)));
    }
    if atom.signs.bits() == 0 {
        return Ok(Form::False);
    }
    if atom.signs.bits() == ALL_SIGNS {
        return Ok(Form::True);
    }
    let (poly, is_negated) = atom.poly.into_primitive(alloc)?;
    Ok(Form::atom(poly, mirrored_if(is_negated, atom.signs)))
}
