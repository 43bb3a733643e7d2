//! The line of a node that fails, and of a limit of nodes that was met.

ghost use Rattle.std.specs.Prelude.{◌≡◌, ◌++◌, codes, decimal, OnOk, IfOk};
ghost use Rattle.std.specs.String.{string_bytes};
ghost use Rattle.std.specs.Fmt.{signed_decimal};
ghost use Rattle.qe_elim.specs.Search.{steps_of};
ghost use Rattle.qe_program.specs.Output.{step_text, path_text, stage_text, limit_text, limit_cause, cause_text, site_text, node_line, node_limit_line};

use crate::fault::push_wide;
use qe_base::OutOfMemory;
use qe_elim::{NodeStop, Step};
use qe_form::Names;
use qe_node::{PolyLimit, Stage};
use qe_print::name_text;
use std::alloc::Global;
use std::fmt::Write;

/// A step: the name of its variable, `:` and the number of its test point.
fn step_text(alloc: Global, step: &Step, names: &Names) -> Result<Vec<u8>, OutOfMemory>
    ensures { IfOk result (λ text. text.items
        ≡ step_text names.now (record { var = step.now.var.0; point = step.now.point })) }
{
    let mut text = name_text(alloc, step.var, names)?;
    let point = format!(in alloc; ":{}", step.point)?;
    text.extend_from_slice(point.as_bytes())?;
    Ok(text)
}

/// The steps from the root of a tree, joined by `/`; `root` where there are none.
fn path_text(alloc: Global, path: &[Step], names: &Names) -> Result<Vec<u8>, OutOfMemory>
    ensures { IfOk result (λ text. text.items ≡ path_text names.now (steps_of path.now)) }
{
    let Some((first, rest)) = path.split_first() else {
        return Vec::from_slice(alloc, b"root");
    };
    let mut text = step_text(alloc, first, names)?;
    for step in rest {
        text.push(b'/')?;
        text.extend_from_slice(&step_text(alloc, step, names)?)?;
    }
    Ok(text)
}

fn stage_text(stage: Stage) -> &'static str
    ensures { result.now ≡ stage_text stage }
{
    match stage {
        Stage::Guard => "guard",
        Stage::Root => "root",
        Stage::Sign => "sign",
        Stage::Slope => "slope",
    }
}

/// Appends the limit that an operation on polynomials met.
fn push_limit(out: &mut String, limit: &PolyLimit) -> Result<(), OutOfMemory>
    ensures { OnOk result (string_bytes out.new ≡ string_bytes out.old ++ limit_text limit.now) }
{
    match limit {
        PolyLimit::Coefficient(wide) => push_wide(out, wide),
        PolyLimit::Exponent => out.push_str(": exponent"),
        PolyLimit::Monomials => out.push_str(": monomials"),
    }
}

/// Why a node fails.
fn cause_text(stop: &NodeStop) -> &'static str
    ensures { result.now ≡ cause_text stop.now }
{
    match stop {
        NodeStop::DegreeExcess => "degree excess",
        NodeStop::TooLarge { .. } => "too large",
        NodeStop::Limit {
            limit: PolyLimit::Coefficient(_),
            ..
        } => "overflow",
        NodeStop::Limit { .. } => "term limit",
    }
}

/// Appends where a node fails.
fn push_site(out: &mut String, stop: &NodeStop) -> Result<(), OutOfMemory>
    ensures { OnOk result (string_bytes out.new ≡ string_bytes out.old ++ site_text stop.now) }
{
    match stop {
        NodeStop::DegreeExcess => Ok(()),
        NodeStop::TooLarge { point } => write!(out, " point {point}"),
        NodeStop::Limit {
            point,
            atom,
            stage,
            limit,
        } => {
            write!(
                out,
                " point {point} stage {} atom {atom}",
                stage_text(*stage)
            )?;
            push_limit(out, limit)
        }
    }
}

/// The line of a node that fails: the cause, the block, the steps to the node and the site.
pub fn node_line(
    alloc: Global,
    block: u32,
    path: &[Step],
    stop: &NodeStop,
    names: &Names,
) -> Result<Vec<u8>, OutOfMemory>
    ensures { IfOk result (λ text. text.items
        ≡ node_line names.now block (steps_of path.now) stop.now) }
{
    let head = format!(in alloc; "{}: block {block} node ", cause_text(stop))?;
    let mut site = String::new(alloc);
    push_site(&mut site, stop)?;
    let mut text = head.into_bytes();
    text.extend_from_slice(&path_text(alloc, path, names)?)?;
    text.extend_from_slice(site.as_bytes())?;
    text.push(b'\n')?;
    Ok(text)
}

/// The line of a block that has more nodes than the limit.
pub fn node_limit_line(alloc: Global, block: u32, limit: u32) -> Result<Vec<u8>, OutOfMemory>
    ensures { IfOk result (λ text. text.items ≡ node_limit_line block limit) }
{
    let mut out = String::new(alloc);
    write!(out, "node limit: block {block} has more than {limit} nodes")?;
    out.push_str("\n")?;
    Ok(out.into_bytes())
}
