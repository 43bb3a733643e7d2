//! The simplified form of a formula.

ghost use Rattle.std.specs.Prelude.{◌≡◌, map, IfOk};
ghost use Rattle.std.specs.List.{flat_map};
ghost use Rattle.qe_form.specs.Tree.{tree, trees};
ghost use Rattle.qe_simp.specs.Meaning.{Keeps};
ghost use Rattle.qe_form.specs.Plain.{IsPlain};
ghost use Rattle.qe_simp.specs.Shape.{IsSimplified, EachAtom, EachAtomOf, IsCanonicalAtom};
ghost use Rattle.qe_simp.specs.Simplified.{united, decided, joint, merged_parts, in_order, parts_in, simplified, simplified_each};

use crate::OutOfMemory;
use crate::atom::simplify_atom;
use crate::connective::Connective;
use crate::merge::merge;
use qe_form::{Form, Forms};
use std::alloc::Global;

/// The formula that the parts are: the neutral constant, one part, or the parts under the
/// connective.
fn unite(mut parts: Vec<Form>, connective: Connective) -> Form
    ensures { tree result ≡ united connective (map tree parts.items) }
{
    if parts.len() > 1 {
        return connective.connected(parts);
    }
    match parts.pop() {
        Some(part) => part,
        None => connective.neutral(),
    }
}

/// The deciding constant where a part decides, and else what the parts are.
fn decide(parts: Vec<Form>, connective: Connective) -> Form
    ensures { tree result ≡ decided connective (map tree parts.items) }
{
    for part in &parts {
        if connective.is_decided_by(part) {
            return connective.deciding();
        }
    }
    unite(parts, connective)
}

/// Sorts the parts, makes neighbours one that are one part, and joins what is left.
fn join_parts(
    alloc: Global,
    mut parts: Vec<Form>,
    connective: Connective,
) -> Result<Form, OutOfMemory>
    ensures { IfOk result (λ f. tree f ≡ decided connective
        (merged_parts connective (in_order (map tree parts.items)))) }
{
    parts.sort()?;
    Ok(decide(merge(alloc, parts, connective)?, connective))
}

/// The simplified form. The atoms that were simplified are on canonical polynomials.
#[cycle(simplify)]
fn simplified_form(alloc: Global, form: Form) -> Result<Form, OutOfMemory>
    ensures exact { IfOk result (λ f. tree f ≡ simplified (tree form)) }
    ensures canonical { IfOk result (λ _. EachAtom IsCanonicalAtom (tree form)) }
{
    match form {
        Form::Atom(atom) => simplify_atom(alloc, atom),
        Form::And(forms) => {
            let parts = gather(alloc, forms, Connective::Conjunction)?;
            join_parts(alloc, parts, Connective::Conjunction)
        }
        Form::Or(forms) => {
            let parts = gather(alloc, forms, Connective::Disjunction)?;
            join_parts(alloc, parts, Connective::Disjunction)
        }
        other @ (Form::True
        | Form::False
        | Form::Not(_)
        | Form::Implies(_, _)
        | Form::Iff(_, _)
        | Form::Ex(_, _)
        | Form::All(_, _)) => Ok(other),
    }
}

/// The simplified formulas as parts under a connective. The atoms that were simplified are on
/// canonical polynomials.
#[cycle(simplify)]
fn gather(alloc: Global, forms: Forms, connective: Connective) -> Result<Vec<Form>, OutOfMemory>
    ensures exact { IfOk result (λ v. map tree v.items
        ≡ flat_map (parts_in connective) (simplified_each (trees forms))) }
    ensures canonical { IfOk result (λ _. EachAtomOf IsCanonicalAtom (trees forms)) }
{
    let mut parts = Vec::new(alloc);
    for form in forms.into_vec() {
        let simple = simplified_form(alloc, form)?;
        connective.add_to(&mut parts, simple)?;
    }
    Ok(parts)
}

/// The simplified form. Atoms with no sign or with all of them, or on numbers, become constants;
/// other atoms are made primitive with a positive leading coefficient. And and Or take in the parts
/// of parts with their own connective; a part that decides leaves its constant; constants that
/// change nothing and repeated parts go; atoms on one polynomial become one, with the signs in both
/// for And and in either for Or; the rest stands in the order of formulas, and a list of one is its
/// part. Formulas with other connectives stay as they are, and so does a form that is simplified
/// already. `Err` only where memory runs out.
pub fn simplify(alloc: Global, form: Form) -> Result<Form, OutOfMemory>
    ensures exact { IfOk result (λ f. tree f ≡ simplified (tree form)) }
    ensures kept { IfOk result (λ f. Keeps (tree form) (tree f)) }
    ensures again { IfOk result (λ f. simplified (tree f) ≡ tree f) }
    ensures plain { IfOk result (λ f. IsPlain (tree form) → IsSimplified (tree f)) }
{
    simplified_form(alloc, form)
}
