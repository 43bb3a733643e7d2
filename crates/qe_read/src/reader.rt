//! Reads a formula with its names.

ghost use Rattle.std.specs.Prelude.{◌≡◌, ◌+◌, ◌<◌, ◌≤◌, ◌^◌, ◌++◌, List, ℕ, [], length, map, IfOk};
ghost use Rattle.std.specs.List.{All};
ghost use Rattle.std.specs.Str.{IsUtf8};
ghost use Rattle.std.specs.String.{string_bytes};
ghost use Rattle.qe_form.specs.Formula.{Formula as FormTree};
ghost use Rattle.qe_form.specs.Tree.{tree};
ghost use Rattle.qe_syntax.specs.Code.{tree_of};
ghost use Rattle.qe_read.specs.Names.{Letters, letters as letters_of};
ghost use Rattle.qe_read.specs.FreeNames.{free_names};
ghost use Rattle.qe_read.specs.Formula.{bound_names};
ghost use Rattle.qe_read.specs.Numbered.{IsWellNumbered};
ghost use Rattle.qe_read.specs.Input.{IsInput, Answers, IsReadAs, AnswersTree};

use crate::fault::ReadFault;
use crate::free_names::FreeNames;
use crate::occurrence::push_free;
use crate::scope::{Context, Scope, letters};
use crate::{Input, OutOfMemory};
use qe_form::Names;
use qe_syntax::{Formula, Name, parse};
use qe_token::tokens;
use std::alloc::Global;
use std::str;

/// The letters of a name as a text of its own.
fn spelled(alloc: Global, letters: &[u8]) -> Result<String, OutOfMemory>
    requires { IsUtf8 letters.now }
    ensures { IfOk result (λ name. string_bytes name ≡ letters.now) }
{
    match str::from_utf8(letters) {
        Ok(text) => String::from_str(alloc, text),
        Err(_) => unreachable!(),
    }
}

/// The free names in their order, and then those that are bound.
fn names_of(context: &Context, bound: &[Name]) -> Result<Names, OutOfMemory>
    requires few { length context.now.free.now + length bound.now < 2 ^ 32 }
    requires free { All IsUtf8 context.now.free.now }
    requires bound { All (λ x. IsUtf8 (letters_of context.now.text.now x)) bound.now }
    ensures { let of_bound = map (letters_of context.now.text.now) bound.now in
        IfOk result (λ names. names ≡ context.now.free.now ++ of_bound) }
{
    let mut names = Names::new(context.alloc);
    for free in context.free.names() {
        names.push(spelled(context.alloc, free)?)?;
    }
    for name in bound {
        names.push(spelled(context.alloc, letters(context.text, *name))?)?;
    }
    Ok(names)
}

/// The formula of a tree with its names, or the first limit that an operation meets.
fn read_tree(alloc: Global, bytes: &[u8], formula: &Formula) -> Result<Input, ReadFault>
    requires few { let free = free_names bytes.now [] (tree_of formula.now) in
        length free + length (bound_names (tree_of formula.now)) < 2 ^ 32 }
    requires free { let free = free_names bytes.now [] (tree_of formula.now) in
        All (λ x. IsUtf8 (letters_of bytes.now x)) free }
    requires bound { All (λ x. IsUtf8 (letters_of bytes.now x))
        (bound_names (tree_of formula.now)) }
    ensures answers { AnswersTree bytes.now (tree_of formula.now) result }
    ensures few { let free = free_names bytes.now [] (tree_of formula.now) in
        let most = length free + length (bound_names (tree_of formula.now)) in
        IfOk result (λ input. length input.names ≤ most) }
{
    let mut occurrences = Vec::new(alloc);
    push_free(&mut occurrences, bytes, &mut Vec::new(alloc), formula)?;
    let free = FreeNames::new(alloc, bytes, &occurrences)?;
    let context = Context {
        alloc,
        text: bytes,
        free: &free,
    };
    let mut scope = Scope::new(alloc);
    let form = context.formula(&mut scope, formula)?;
    let names = names_of(&context, &scope.bound)?;
    Ok(Input { form, names })
}

/// Reads a text of at most 1,048,576 bytes: the formula with the names of its variables, or the first fault.
///
/// The free names have the numbers from 0 in the order of their bytes,
/// and the bound ones follow in the order of the text.
pub fn read(alloc: Global, bytes: &[u8]) -> Result<Input, ReadFault>
    requires { length bytes.now ≤ 1048576 }
    ensures answers { Answers bytes.now result }
    ensures well_numbered { IfOk result (λ input. IsWellNumbered (tree input.form) input.names) }
    ensures few { IfOk result (λ input. length input.names < 2 ^ 31) }
    ensures only { (f : FormTree) (names : List Letters) → IsInput bytes.now f names
        → IsReadAs f names result }
{
    let tokens = tokens(alloc, bytes)?;
    let formula = parse(alloc, &tokens, bytes.len() as u32)?;
    read_tree(alloc, bytes, &formula)
}
