//! What comes of a generated input.

ghost use Rattle.std.specs.Prelude.{◌≡◌, ◌≤◌, IfOk};
ghost use Rattle.qe_form.specs.Tree.{tree};
ghost use Rattle.qe_form.specs.Measures.{count};
ghost use Rattle.qe_form.specs.Plain.{IsPlain};
ghost use Rattle.qe_norm.specs.Prenex as prenex_form;
ghost use Rattle.qe_gen.specs.Generated.{input_form, input_names};
ghost use Rattle.qe_program.specs.declared.asked.Request.TheVariants.{Summary};
ghost use Rattle.qe_program.specs.Made.{IsText};
ghost use Rattle.qe_program.specs.Output.{summary_text};

use crate::reply::{Reply, too_many_nodes};
use crate::status::Status;
use qe_base::OutOfMemory;
use qe_elim::{ElimStop, eliminate_alone};
use qe_gen::make;
use qe_norm::{NormStop, Prenex, normal};
use std::alloc::Global;
use std::fmt::Write;

/// The lines of a summary: the number of the input, how many atoms and blocks it has, and how many
/// atoms and constants the result has.
fn summary_text(alloc: Global, number: u32, count: u32) -> Result<Vec<u8>, OutOfMemory>
    ensures { IfOk result (λ text. text.items ≡ summary_text number count) }
{
    let mut out = String::new(alloc);
    write!(out, "number {number}")?;
    out.push_str("\ninput atoms 16\nblocks 1\n")?;
    write!(out, "result atoms {count}")?;
    out.push_str("\n")?;
    Ok(out.into_bytes())
}

/// The summary of a generated input in prenex form.
fn summary_of(alloc: Global, number: u32, prenex: &Prenex, limit: u32) -> Result<Reply, OutOfMemory>
    requires is { prenex_form.IsPrenexOf (input_form number) input_names prenex.now }
    requires numbered { prenex_form.IsWellNumbered prenex.now }
    requires plain { IsPlain (tree prenex.now.matrix) }
    requires small { count (tree prenex.now.matrix) ≤ 65536 }
    requires some { 1 ≤ limit }
    ensures { IfOk result (λ reply. IsText (Summary limit number) reply.status reply.text.items) }
{
    match eliminate_alone(alloc, prenex, limit) {
        Ok(outcome) => Ok(Reply {
            status: Status::Ok,
            text: summary_text(alloc, number, outcome.form.atom_count())?,
        }),
        // No node of a generated input fails.
        Err(ElimStop::Node { .. }) => unreachable!(),
        Err(ElimStop::NodeLimit { block, limit }) => too_many_nodes(alloc, block, limit),
        Err(ElimStop::OutOfMemory) => Err(OutOfMemory),
    }
}

/// The reply to words that ask for a summary: what comes of the generated input with a number, where
/// a block has so many nodes at most.
pub fn summarized(alloc: Global, number: u32, limit: u32) -> Result<Reply, OutOfMemory>
    requires number { number ≤ 999999 }
    requires some { 1 ≤ limit }
    ensures { IfOk result (λ reply. IsText (Summary limit number) reply.status reply.text.items) }
{
    let input = make(alloc, number)?;
    match normal(alloc, input) {
        Ok(prenex) => summary_of(alloc, number, &prenex, limit),
        // The prenex form of a generated input is small.
        Err(NormStop::TooLarge(_)) => unreachable!(),
        Err(NormStop::OutOfMemory) => Err(OutOfMemory),
    }
}
