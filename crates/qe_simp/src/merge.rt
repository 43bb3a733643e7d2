//! Neighbours among sorted parts that are one part.

ghost use Rattle.std.specs.Prelude.{◌≡◌, List, [], ◌∷◌, ◌++◌, map, IfOk, OnOk};
ghost use Rattle.qe_form.specs.Formula.{Formula};
ghost use Rattle.qe_form.specs.Tree.{tree};
ghost use Rattle.qe_simp.specs.Simplified.{as_one, merged_parts};
ghost use Rattle.qe_simp.specs.Meaning.{IsJoined};

use crate::OutOfMemory;
use crate::connective::Connective;
use qe_form::{Atom, Form};
use std::alloc::Global;

/// Two parts, or the one that they are.
#[derive(Drop)]
pub enum Joined {
    One(Form),
    Two(Form, Form),
}

/// Makes two parts one where they are: atoms on one polynomial, and equal formulas.
fn join(connective: Connective, last: Form, next: Form) -> Joined
    ensures { IsJoined connective (tree last) (tree next) result }
{
    match (last, next) {
        (Form::Atom(first), Form::Atom(second)) => {
            if first.poly == second.poly {
                let signs = connective.joined_signs(first.signs, second.signs);
                Joined::One(Form::Atom(Atom {
                    poly: first.poly,
                    signs,
                }))
            } else {
                Joined::Two(Form::Atom(first), Form::Atom(second))
            }
        }
        (last, next) => {
            if last == next {
                Joined::One(last)
            } else {
                Joined::Two(last, next)
            }
        }
    }
}

/// Adds a part to merged parts: as one with the last of them where they are one part.
fn put(parts: &mut Vec<Form>, part: Form, connective: Connective) -> Result<(), OutOfMemory>
    ensures { OnOk result ((fs : List Formula)
        → map tree parts.old.items ≡ merged_parts connective fs
        → map tree parts.new.items ≡ merged_parts connective (fs ++ tree part ∷ [])) }
{
    let Some(last) = parts.pop() else {
        parts.push(part)?;
        return Ok(());
    };
    match join(connective, last, part) {
        Joined::One(one) => parts.push(one)?,
        Joined::Two(first, second) => {
            parts.push(first)?;
            parts.push(second)?;
        }
    }
    Ok(())
}

/// The parts, where neighbours that are one part are made one.
pub fn merge(
    alloc: Global,
    parts: Vec<Form>,
    connective: Connective,
) -> Result<Vec<Form>, OutOfMemory>
    ensures { IfOk result (λ v. map tree v.items ≡ merged_parts connective (map tree parts.items)) }
{
    let mut merged = Vec::new(alloc);
    for part in parts {
        put(&mut merged, part, connective)?;
    }
    Ok(merged)
}
