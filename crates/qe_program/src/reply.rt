//! The text for an input, made whole before any of it is written.

ghost use Rattle.std.specs.Prelude.{◌≡◌, ◌<◌, ◌≤◌, ◌^◌, length, IfOk, IsErr};
ghost use Rattle.qe_form.specs.Tree.{tree};
ghost use Rattle.qe_form.specs.Measures.{count};
ghost use Rattle.qe_form.specs.Plain.{IsPlain};
ghost use Rattle.qe_form.specs.Numbered.{IsWellNumbered};
ghost use Rattle.qe_print.specs.Formula.{formula_text};
ghost use Rattle.qe_norm.specs.Prenex as prenex_form;
ghost use Rattle.qe_node.specs.declared.stop.NodeStop.{NodeStop};
ghost use Rattle.qe_elim.specs.Search.{steps_of};
ghost use Rattle.qe_program.specs.Reply.{Says, RepliesToPrenex, RepliesToFormula, RepliesToFault, Replies, Delivers};
ghost use Rattle.qe_program.specs.Refusal.{limit_status, stop_status};
ghost use Rattle.qe_program.specs.Output.{line, made_line, usage_line, too_long_line, prenex_too_large_line, node_line, node_limit_line};

use crate::fault::fault_line;
use crate::status::Status;
use crate::stop::{node_limit_line, node_line};
use qe_base::{OutOfMemory, Sink, write_all};
use qe_elim::{ElimStop, NodeStop, Step, eliminate_alone};
use qe_form::{Form, Names};
use qe_gen::make;
use qe_node::PolyLimit;
use qe_norm::{NormStop, Prenex, normal};
use qe_print::form_text;
use qe_read::{Input, ReadFault, read};
use std::alloc::Global;

/// A status, and the text that is written for it.
#[derive(Drop)]
pub struct Reply {
    pub status: Status,
    pub text: Vec<u8>,
}

/// A text with a line feed at its end.
fn line(alloc: Global, text: &str) -> Result<Vec<u8>, OutOfMemory>
    ensures { IfOk result (λ bytes. bytes.items ≡ line text.now) }
{
    let mut bytes = Vec::from_slice(alloc, text.as_bytes())?;
    bytes.push(b'\n')?;
    Ok(bytes)
}

/// The reply to words that give no job.
pub fn usage(alloc: Global) -> Result<Reply, OutOfMemory>
    ensures { IfOk result (Says Status.Usage usage_line) }
{
    let text = line(
        alloc,
        "usage: qe [eliminate|answers|summary|make] [--workers W] [--nodes N] [--number K]",
    )?;
    Ok(Reply {
        status: Status::Usage,
        text,
    })
}

/// The reply to more bytes than are read.
pub fn too_long(alloc: Global) -> Result<Reply, OutOfMemory>
    ensures { IfOk result (Says Status.InputTooLong too_long_line) }
{
    Ok(Reply {
        status: Status::InputTooLong,
        text: line(alloc, "input too long: more than 1048576 bytes")?,
    })
}

/// The reply to a formula whose prenex form is too large.
fn prenex_too_large(alloc: Global) -> Result<Reply, OutOfMemory>
    ensures { IfOk result (Says Status.TooLarge prenex_too_large_line) }
{
    Ok(Reply {
        status: Status::TooLarge,
        text: line(alloc, "too large: prenex form")?,
    })
}

fn limit_status(limit: &PolyLimit) -> Status
    ensures { result ≡ limit_status limit.now }
{
    match limit {
        PolyLimit::Coefficient(_) => Status::Overflow,
        PolyLimit::Exponent | PolyLimit::Monomials => Status::TermLimit,
    }
}

/// The status of a node that fails.
fn stop_status(stop: &NodeStop) -> Status
    ensures { result ≡ stop_status stop.now }
{
    match stop {
        NodeStop::DegreeExcess => Status::DegreeExcess,
        NodeStop::Limit { limit, .. } => limit_status(limit),
        NodeStop::TooLarge { .. } => Status::TooLarge,
    }
}

/// The reply to a formula in whose elimination a node fails.
fn node_fails(
    alloc: Global,
    block: u32,
    path: &[Step],
    stop: &NodeStop,
    names: &Names,
) -> Result<Reply, OutOfMemory>
    ensures { IfOk result (Says (stop_status stop.now)
        (node_line names.now block (steps_of path.now) stop.now)) }
{
    Ok(Reply {
        status: stop_status(stop),
        text: node_line(alloc, block, path, stop, names)?,
    })
}

/// The reply to a formula in whose elimination a block has more nodes than the limit.
pub fn too_many_nodes(alloc: Global, block: u32, limit: u32) -> Result<Reply, OutOfMemory>
    ensures { IfOk result (Says Status.NodeLimit (node_limit_line block limit)) }
{
    Ok(Reply {
        status: Status::NodeLimit,
        text: node_limit_line(alloc, block, limit)?,
    })
}

/// The reply to the first fault of an input.
fn refusal(alloc: Global, fault: &ReadFault) -> Result<Reply, OutOfMemory>
    ensures { IfOk result (RepliesToFault fault.now) }
{
    Ok(Reply {
        status: Status::BadInput,
        text: fault_line(alloc, fault)?,
    })
}

/// The reply that is a formula.
fn by_formula(alloc: Global, form: &Form, names: &Names) -> Result<Reply, OutOfMemory>
    ensures { IfOk result (Says Status.Ok (line (formula_text names.now (tree form.now)))) }
{
    let mut text = form_text(alloc, form, names)?;
    text.push(b'\n')?;
    Ok(Reply {
        status: Status::Ok,
        text,
    })
}

/// The reply to words that ask for a generated input: that input.
pub fn made(alloc: Global, number: u32) -> Result<Reply, OutOfMemory>
    requires { number ≤ 999999 }
    ensures { IfOk result (Says Status.Ok (made_line number)) }
{
    let input = make(alloc, number)?;
    by_formula(alloc, &input.form, &input.names)
}

/// The reply to a formula in prenex form.
fn reply_to_prenex(alloc: Global, prenex: &Prenex, limit: u32) -> Result<Reply, OutOfMemory>
    requires numbered { prenex_form.IsWellNumbered prenex.now }
    requires plain { IsPlain (tree prenex.now.matrix) }
    requires small { count (tree prenex.now.matrix) ≤ 65536 }
    requires some { 1 ≤ limit }
    ensures { IfOk result (RepliesToPrenex limit prenex.now) }
{
    match eliminate_alone(alloc, prenex, limit) {
        Ok(outcome) => by_formula(alloc, &outcome.form, &prenex.names),
        Err(ElimStop::Node { block, path, stop }) => {
            node_fails(alloc, block, &path, &stop, &prenex.names)
        }
        Err(ElimStop::NodeLimit { block, limit }) => too_many_nodes(alloc, block, limit),
        Err(ElimStop::OutOfMemory) => Err(OutOfMemory),
    }
}

/// The reply to a formula with its names.
fn reply_to_input(alloc: Global, input: Input, limit: u32) -> Result<Reply, OutOfMemory>
    requires numbered { IsWellNumbered (tree input.form) input.names }
    requires few { length input.names < 2 ^ 31 }
    requires some { 1 ≤ limit }
    ensures { IfOk result (RepliesToFormula limit (tree input.form) input.names) }
{
    match normal(alloc, input) {
        Ok(prenex) => reply_to_prenex(alloc, &prenex, limit),
        Err(NormStop::TooLarge(_)) => prenex_too_large(alloc),
        Err(NormStop::OutOfMemory) => Err(OutOfMemory),
    }
}

/// The reply to the bytes of an input.
pub fn reply_to(alloc: Global, bytes: &[u8], limit: u32) -> Result<Reply, OutOfMemory>
    requires length { length bytes.now ≤ 1048576 }
    requires some { 1 ≤ limit }
    ensures { IfOk result (Replies limit bytes.now) }
{
    match read(alloc, bytes) {
        Ok(input) => reply_to_input(alloc, input, limit),
        Err(fault) => refusal(alloc, &fault),
    }
}

/// Writes a reply, where there was memory for it.
pub fn deliver<K: Sink>(sink: &mut K, reply: Result<Reply, OutOfMemory>) -> Status
    ensures delivers { Delivers reply result (K.taken sink.old) (K.taken sink.new)
        (K.faults sink.old) (K.faults sink.new) }
    ensures kept { IsErr reply → sink.new ≡ sink.old }
{
    match reply {
        Ok(reply) => match write_all(sink, &reply.text) {
            Ok(()) => reply.status,
            Err(_) => Status::WriteFault,
        },
        Err(_) => Status::OutOfMemory,
    }
}
