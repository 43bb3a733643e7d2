//! Prenex forms of texts, worked out by hand.

use crate::built::read_input;
use crate::spelled::push_form;
use qe_norm::{Block, Kind, NormStop, OutOfMemory, Prenex, normal};
use std::alloc::Global;
use std::fmt::Write;

/// More names than a text has here.
const MANY: u32 = 100;

/// The quantifier with the numbers of its variables, as ` ex 1 2`.
fn push_block(out: &mut String, block: &Block) -> Result<(), OutOfMemory> {
    out.push_str(match block.kind {
        Kind::Ex => " ex",
        Kind::All => " all",
    })?;
    for var in block.vars.items() {
        write!(out, " {}", var.0)?;
    }
    Ok(())
}

fn push_prenex(out: &mut String, prenex: &Prenex) -> Result<(), OutOfMemory> {
    for block in &prenex.blocks {
        push_block(out, block)?;
    }
    out.push_str(" ")?;
    push_form(out, &prenex.matrix)
}

fn prenex_of(alloc: Global, text: &str) -> Result<Prenex, NormStop> {
    let input = read_input(alloc, text)?;
    if input.names.len() >= MANY {
        return Err(NormStop::OutOfMemory);
    }
    normal(alloc, input)
}

fn prenex_text(alloc: Global, text: &str) -> Result<String, NormStop> {
    let prenex = prenex_of(alloc, text)?;
    let mut out = String::new(alloc);
    push_prenex(&mut out, &prenex)?;
    Ok(out)
}

fn is_prenex(alloc: Global, text: &str, want: &str) -> bool {
    match prenex_text(alloc, text) {
        Ok(found) => found.as_str() == want,
        Err(_) => false,
    }
}

// In the results the variables 0, 1, 2 and all further ones are written as a, b, c and x.
const ROWS: &[(&str, &str)] = &[
    ("true", " true"),
    ("not a < 0", " a >= 0"),
    ("a = 0 implies b < 0", " [a <> 0 or b < 0]"),
    ("not [a = 0 implies b < 0]", " [a = 0 and b >= 0]"),
    (
        "a = 0 iff b < 0",
        " [[a = 0 and b < 0] or [a <> 0 and b >= 0]]",
    ),
    (
        "not [a = 0 iff b < 0]",
        " [[a = 0 and b >= 0] or [a <> 0 and b < 0]]",
    ),
    ("not [all x. x = 0]", " ex 0 a <> 0"),
    ("all x. ex y. y = 0", " all 0 ex 1 b = 0"),
    ("not [all x. not [ex y. y = 0]]", " ex 0 1 b = 0"),
    ("not [all x. ex y. y = 0]", " ex 0 all 1 b <> 0"),
    ("[ex y. y = 0] implies a = 0", " all 1 [b <> 0 or a = 0]"),
    (
        "[all y. y = 0] implies [ex z. z = 0]",
        " ex 0 1 [a <> 0 or b = 0]",
    ),
    // an equivalence has its quantifiers twice, the copies with numbers of their own
    (
        "[ex y. y = 0] iff a = 0",
        " ex 1 all 2 [[b = 0 and a = 0] or [c <> 0 and a <> 0]]",
    ),
    (
        "not [[ex y. y = 0] iff a = 0]",
        " ex 1 all 2 [[b = 0 and a <> 0] or [c <> 0 and a = 0]]",
    ),
    (
        "[ex y. y = 0] iff [all z. z = 0]",
        " ex 0 all 1 2 ex 3 [[a = 0 and b = 0] or [c <> 0 and x <> 0]]",
    ),
    // the inner x is another variable
    (
        "ex x. [[ex x. x = 0] and x = 0]",
        " ex 0 1 [b = 0 and a = 0]",
    ),
];

#[test]
fn gives_prenex_forms(rt: HostRuntime) {
    for (text, want) in ROWS {
        assert!(rt; is_prenex(rt.alloc(), text, want));
    }
}
