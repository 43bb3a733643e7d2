//! What words and texts come to.

use crate::discs::{DISC, DISC_MEETS, PLANE, PLANE_MEETS};
use qe_base::{MemSink, MemSource};
use qe_program::run_alone;
use std::alloc::{AllocError, Global};
use std::test::Fail;

const USAGE: &str =
    "usage: qe [eliminate|answers|summary|make] [--workers W] [--nodes N] [--number K]\n";

/// The words that a text has between its blanks; none where it is empty.
fn words_of(alloc: Global, text: &str) -> Result<Vec<String>, AllocError> {
    let mut words = Vec::new(alloc);
    if text.is_empty() {
        return Ok(words);
    }
    for word in text.split(' ') {
        words.push(String::from_str(alloc, word)?)?;
    }
    Ok(words)
}

/// What a run comes to: the number of its status, and the bytes that the sink took.
fn outcome(alloc: Global, words: &[String], input: Vec<u8>) -> Result<(u8, Vec<u8>), AllocError> {
    let mut source = MemSource::new(input, Vec::new(alloc), Vec::new(alloc));
    let mut sink = MemSink::new(alloc, 4096, Vec::new(alloc), Vec::new(alloc))?;
    let status = run_alone(alloc, words, &mut source, &mut sink);
    Ok((status.code(), Vec::from_slice(alloc, sink.taken())?))
}

fn run_row(alloc: Global, words: &str, input: &str) -> Result<(u8, Vec<u8>), AllocError> {
    let words = words_of(alloc, words)?;
    outcome(alloc, &words, Vec::from_slice(alloc, input.as_bytes())?)
}

/// Whether it is this status and this text.
fn is_outcome(found: Result<(u8, Vec<u8>), AllocError>, status: u8, text: &str) -> bool {
    match found {
        Ok((got, taken)) => got == status && taken.as_slice() == text.as_bytes(),
        Err(_) => false,
    }
}

// The words, the input, the status and the text.
const ROWS: &[(&str, &str, u8, &str)] = &[
    ("", "", 4, "bad input: syntax at 0\n"),
    ("", "true", 0, "true\n"),
    ("", "2 < 3", 0, "true\n"),
    ("", "ex x. x^2 = 2", 0, "true\n"),
    ("", "ex x. x^2 + 1 = 0", 0, "false\n"),
    (
        "",
        "ex x. a*x^2 + b*x + c = 0",
        0,
        "[4*a*c - b^2 <= 0 and a <> 0] or [a = 0 and b = 0 and c = 0] or [a = 0 and b <> 0]\n",
    ),
    ("", "all x. x^2 + b*x + c > 0", 0, "b^2 - 4*c < 0\n"),
    ("", "ex x. x > a and x < b", 0, "a - b < 0\n"),
    ("", "all x. ex y. [x < 0 or y^2 = x]", 0, "true\n"),
    ("", "ex x. x^3 = 2", 6, "degree excess: block 1 node root\n"),
    ("", "ex x y. x^3 + y = 0", 0, "true\n"),
    (
        "",
        "ex x. 170141183460469231731687303715884105727*x^2 + 170141183460469231731687303715884105727*x + 1 = 0",
        7,
        "overflow: block 1 node root point 1 stage guard atom 0: 170141183460469231731687303715884105727 * 170141183460469231731687303715884105727\n",
    ),
    (
        "",
        "170141183460469231731687303715884105728 = 0",
        4,
        "bad input: wide literal at 0\n",
    ),
    (
        "--workers 1",
        "ex x y. [y = 0 and 170141183460469231731687303715884105727*x^2 + 170141183460469231731687303715884105727*x + 1 = 0] or [y = 1 and x = 0]",
        0,
        "true\n",
    ),
    (
        "--workers 16",
        "ex x y. [y = 0 and 170141183460469231731687303715884105727*x^2 + 170141183460469231731687303715884105727*x + 1 = 0] or [y = 1 and x = 0]",
        0,
        "true\n",
    ),
    (
        "",
        "ex x y. y = 0 and 170141183460469231731687303715884105727*x^2 + 170141183460469231731687303715884105727*x + 1 = 0",
        7,
        "overflow: block 1 node y:0 point 1 stage guard atom 0: 170141183460469231731687303715884105727 * 170141183460469231731687303715884105727\n",
    ),
    ("", "x > 0 and [ex x. x < 0]", 0, "x > 0\n"),
    (
        "--nodes 2",
        "ex x y. x > a and y > x and y < b",
        9,
        "node limit: block 1 has more than 2 nodes\n",
    ),
    (
        "--nodes 3",
        "ex x y. x > a and y > x and y < b",
        0,
        "a - b < 0\n",
    ),
    ("", "ex x. 0*x = 0", 0, "true\n"),
    ("--workers 1", DISC, 0, DISC_MEETS),
    ("--workers 4", DISC, 0, DISC_MEETS),
    ("--workers 16", DISC, 0, DISC_MEETS),
    ("--workers 1", PLANE, 0, PLANE_MEETS),
    ("--workers 4", PLANE, 0, PLANE_MEETS),
    ("--workers 16", PLANE, 0, PLANE_MEETS),
    ("", "ex x. x^2 =", 4, "bad input: syntax at 11\n"),
    (
        "",
        "170141183460469231731687303715884105727 + 1 > x",
        4,
        "bad input: overflow at 40: 170141183460469231731687303715884105727 + 1\n",
    ),
    ("", "x^65536 = 0", 4, "bad input: exponent at 2\n"),
    (
        "",
        "ex x. a^40000*x^2 + a^40000*x + 1 = 0",
        8,
        "term limit: block 1 node root point 1 stage guard atom 0: exponent\n",
    ),
    ("--workers 17", "2 < 3", 1, USAGE),
    (
        "summary --number 1",
        "",
        0,
        "number 1\ninput atoms 16\nblocks 1\nresult atoms 1\n",
    ),
];

#[test]
fn answers_rows(rt: HostRuntime) {
    for (words, input, status, text) in ROWS {
        assert!(rt;
            is_outcome(run_row(rt.alloc(), words, input), *status, text),
            "{words}: {input}"
        );
    }
}

/// Whether the status is 0 and the text begins so.
fn begins(found: Result<(u8, Vec<u8>), AllocError>, front: &str) -> bool {
    match found {
        Ok((status, taken)) => status == 0 && taken.starts_with(front.as_bytes()),
        Err(_) => false,
    }
}

#[test]
fn makes_an_input(rt: HostRuntime) {
    let front =
        "ex x1. ex x2. ex x3. [4*x1 + 9*x2 - 5*x3 + 5 <= 0 or 6*a - 2*x1 + 7*x2 - 3*x3 - 4 <= 0] and [";
    assert!(rt; begins(run_row(rt.alloc(), "make --number 1", ""), front));
}

/// Appends a text so many times.
fn repeat(out: &mut Vec<u8>, count: u32, text: &str) -> Result<(), AllocError> {
    for _ in 0..count {
        out.extend_from_slice(text.as_bytes())?;
    }
    Ok(())
}

/// A text with another so many times before it, and a third as often after it.
fn nested(alloc: Global, count: u32, texts: [&str; 3]) -> Result<Vec<u8>, AllocError> {
    let mut out = Vec::new(alloc);
    repeat(&mut out, count, texts[0])?;
    repeat(&mut out, 1, texts[1])?;
    repeat(&mut out, count, texts[2])?;
    Ok(out)
}

fn run_nested(alloc: Global, count: u32, texts: [&str; 3]) -> Result<(u8, Vec<u8>), AllocError> {
    outcome(alloc, &[], nested(alloc, count, texts)?)
}

// How often, the texts before, in the middle and after, the status and the text.
const NESTED: &[(u32, [&str; 3], u8, &str)] = &[
    (257, ["[", "", ""], 4, "bad input: too deep at 256\n"),
    (14, ["[", "x = 0", "] iff x = 0"], 0, "x = 0\n"),
    (
        15,
        ["[", "x = 0", "] iff x = 0"],
        5,
        "too large: prenex form\n",
    ),
    (
        1_048_577,
        [" ", "", ""],
        3,
        "input too long: more than 1048576 bytes\n",
    ),
];

#[test]
fn answers_long_rows(rt: HostRuntime) {
    for (count, texts, status, text) in NESTED {
        assert!(rt;
            is_outcome(run_nested(rt.alloc(), *count, *texts), *status, text),
            "{count}"
        );
    }
}

/// `ex x. x > 1 or x > 2` and so on, below a number.
fn many_atoms(alloc: Global, count: u32) -> Result<Vec<u8>, AllocError> {
    let mut text = String::from_str(alloc, "ex x. x > 1")?;
    for number in 2..count {
        text.push_str(&format!(in alloc; " or x > {number}")?)?;
    }
    Ok(text.into_bytes())
}

fn run_atoms(alloc: Global) -> Result<(u8, Vec<u8>), AllocError> {
    outcome(alloc, &[], many_atoms(alloc, 30_001)?)
}

#[test]
fn puts_a_point_into_many_atoms(rt: HostRuntime) {
    let want = "too large: block 1 node root point 0\n";
    assert!(rt; is_outcome(run_atoms(rt.alloc()), 5, want));
}

#[test]
fn a_write_fails_in_the_middle(rt: HostRuntime) -> Result<(), Fail> {
    let alloc = rt.alloc();
    let input = Vec::from_slice(alloc, DISC.as_bytes())?;
    let mut source = MemSource::new(input, Vec::new(alloc), Vec::new(alloc));
    let cuts = Vec::from_slice(alloc, &[16])?;
    let failing = Vec::from_slice(alloc, &[1])?;
    let mut sink = MemSink::new(alloc, 4096, cuts, failing)?;
    let status = run_alone(alloc, &[], &mut source, &mut sink);
    assert_eq!(rt; status.code(), 10);
    assert_eq!(rt; sink.taken(), b"r^2 - u^2 - 2*u*".as_slice());
    Ok(())
}

#[test]
fn a_read_fails(rt: HostRuntime) -> Result<(), Fail> {
    let alloc = rt.alloc();
    let input = Vec::from_slice(alloc, b"2 < 3")?;
    let failing = Vec::from_slice(alloc, &[0])?;
    let mut source = MemSource::new(input, Vec::new(alloc), failing);
    let mut sink = MemSink::new(alloc, 128, Vec::new(alloc), Vec::new(alloc))?;
    let status = run_alone(alloc, &[], &mut source, &mut sink);
    assert_eq!(rt; status.code(), 2);
    assert!(rt; sink.taken().is_empty());
    Ok(())
}
