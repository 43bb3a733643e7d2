//! Candidates, guards and points, worked out by hand. The variables are `a`, `b`, `c` and `x`, numbered from 0.

use crate::built::{A, B, C, Linear, ONE, X, ZERO, quadratic, read_input};
use crate::spelled::{push_form, push_poly};
use qe_points::{
    Candidate, Form, GuardedPoint, OutOfMemory, Point, Poly, RootPoint, SubstStop, Which,
    candidates, guarded,
};
use std::alloc::Global;
use std::fmt::Write;

/// A polynomial in `x` by its coefficients of `x^2`, `x` and 1, each `numbers[0]*a + numbers[1]*b + numbers[2]*c + numbers[3]`.
type Numbers = [Linear; 3];

/// A candidate as `upper+ 2: POLY`, with the number of its atom.
fn push_candidate(out: &mut String, candidate: &Candidate) -> Result<(), OutOfMemory> {
    match candidate {
        Candidate::Root {
            poly,
            atom,
            which,
            plus,
        } => {
            out.push_str(match which {
                Which::Linear => "linear",
                Which::Upper => "upper",
                Which::Lower => "lower",
            })?;
            out.push_str(if *plus { "+" } else { "" })?;
            write!(out, " {atom}: ")?;
            push_poly(out, poly)
        }
        Candidate::MinusInf => out.push_str("below"),
    }
}

fn candidates_text(alloc: Global, form: &Form) -> Result<String, OutOfMemory> {
    let mut out = String::new(alloc);
    for candidate in &candidates(alloc, form, X)? {
        push_candidate(&mut out, candidate)?;
        out.push_str("; ")?;
    }
    Ok(out)
}

fn push_part(out: &mut String, before: &str, poly: &Poly) -> Result<(), OutOfMemory> {
    out.push_str(before)?;
    push_poly(out, poly)
}

/// A root as `(p + (q)*sqrt(r))/(s)`.
fn push_root(out: &mut String, root: &RootPoint) -> Result<(), OutOfMemory> {
    push_part(out, "(", &root.p)?;
    push_part(out, " + (", &root.q)?;
    push_part(out, ")*sqrt(", &root.r)?;
    push_part(out, "))/(", &root.s)?;
    out.push_str(")")
}

fn push_point(out: &mut String, point: &Point) -> Result<(), OutOfMemory> {
    match point {
        Point::Root(root) => push_root(out, root),
        Point::RootPlus(root) => {
            push_root(out, root)?;
            out.push_str("+")
        }
        Point::MinusInf => out.push_str("below"),
    }
}

fn push_guarded(out: &mut String, found: &GuardedPoint) -> Result<(), OutOfMemory> {
    push_form(out, &found.guard)?;
    out.push_str(": ")?;
    push_point(out, &found.point)
}

/// The guard, and then the point; `none` where there is none.
fn guarded_text(alloc: Global, found: &Option<GuardedPoint>) -> Result<String, OutOfMemory> {
    let mut out = String::new(alloc);
    match found {
        Some(found) => push_guarded(&mut out, found)?,
        None => out.push_str("none")?,
    }
    Ok(out)
}

/// The polynomial; no limit is met.
fn general(alloc: Global, numbers: Numbers) -> Result<Poly, SubstStop> {
    match quadratic(alloc, numbers) {
        Ok(poly) => Ok(poly),
        Err(_) => Err(SubstStop::OutOfMemory),
    }
}

/// The guard and the point of the candidate at a root of the polynomial, with the atom number 7.
fn guarded_root(
    alloc: Global,
    poly: Poly,
    which: Which,
    plus: bool,
) -> Result<Option<GuardedPoint>, SubstStop> {
    let atom = 7;
    let degree = poly.degree_in(X);
    match which {
        Which::Linear if 0 < degree && degree <= 2 => {
            let which = Which::Linear;
            guarded(
                alloc,
                &Candidate::Root {
                    poly,
                    atom,
                    which,
                    plus,
                },
                X,
            )
        }
        Which::Upper if degree == 2 => {
            let which = Which::Upper;
            guarded(
                alloc,
                &Candidate::Root {
                    poly,
                    atom,
                    which,
                    plus,
                },
                X,
            )
        }
        Which::Lower if degree == 2 => {
            let which = Which::Lower;
            guarded(
                alloc,
                &Candidate::Root {
                    poly,
                    atom,
                    which,
                    plus,
                },
                X,
            )
        }
        _ => Err(SubstStop::TooLarge),
    }
}

/// `a*x^2 + b*x + c`
const GENERAL: Numbers = [A, B, C];

/// `a - x`
const TO_A: Numbers = [ZERO, [0, 0, 0, -1], A];

/// `b - x^2`
const SQUARE: Numbers = [[0, 0, 0, -1], ZERO, B];

/// The candidates of the formula, as text.
fn listed_text(alloc: Global, text: &str) -> Result<String, OutOfMemory> {
    let input = read_input(alloc, text)?;
    candidates_text(alloc, &input.form)
}

fn is_listed(alloc: Global, text: &str, want: &str) -> bool {
    match listed_text(alloc, text) {
        Ok(found) => found.as_str() == want,
        Err(_) => false,
    }
}

// Each formula has the free names a, b, c and x.
const LISTS: &[(&str, &str)] = &[
    (
        "a*x^2 + b*x + c = 0",
        "linear 0: a*x^2 + b*x + c; upper 0: a*x^2 + b*x + c; lower 0: a*x^2 + b*x + c; below; ",
    ),
    (
        "a - x < 0 and b - x > 0 and c = 0",
        "linear+ 0: a - x; linear+ 1: b - x; below; ",
    ),
    // a polynomial in both groups; it is first where zero is allowed only in the third atom
    (
        "[a - x + 2 < 0 and b - x^2 = 0] or [a - x + 2 >= 0 and b - x <= 0] or c = 0",
        "linear 1: b - x^2; upper 1: b - x^2; lower 1: b - x^2; linear 2: a - x + 2; linear 3: b - x; linear+ 0: a - x + 2; below; ",
    ),
    // repeats keep the first number; what has no x gives none, and is counted
    (
        "[x = 0 and a - x <= 0] or [x <= 0 and a < 0] or [b - x <> 0 and b - x < 0] or c = 0",
        "linear 0: x; linear 1: a - x; linear+ 4: b - x; below; ",
    ),
    ("a + b + c = 0 or 0*x = 0", "below; "),
];

#[test]
fn lists_candidates(rt: HostRuntime) {
    for (text, want) in LISTS {
        assert!(rt; is_listed(rt.alloc(), text, want));
    }
}

fn found_text(
    alloc: Global,
    numbers: Numbers,
    which: Which,
    plus: bool,
) -> Result<String, SubstStop> {
    let poly = general(alloc, numbers)?;
    let found = guarded_root(alloc, poly, which, plus)?;
    Ok(guarded_text(alloc, &found)?)
}

/// The guard and the point of the candidate at a root, as text.
fn is_found(alloc: Global, numbers: Numbers, which: Which, plus: bool, want: &str) -> bool {
    match found_text(alloc, numbers, which, plus) {
        Ok(text) => text.as_str() == want,
        Err(_) => false,
    }
}

const GUARDS: &[(Numbers, Which, bool, &str)] = &[
    (
        GENERAL,
        Which::Linear,
        false,
        "[a = 0 and b <> 0]: (-c + (0)*sqrt(0))/(b)",
    ),
    (
        GENERAL,
        Which::Upper,
        false,
        "[4*a*c - b^2 <= 0 and a <> 0]: (-b + (1)*sqrt(-4*a*c + b^2))/(2*a)",
    ),
    (
        GENERAL,
        Which::Lower,
        true,
        "[4*a*c - b^2 <= 0 and a <> 0]: (-b + (-1)*sqrt(-4*a*c + b^2))/(2*a)+",
    ),
    // -1 is negated
    (TO_A, Which::Linear, true, "true: (a + (0)*sqrt(0))/(1)+"),
    (
        SQUARE,
        Which::Upper,
        false,
        "b >= 0: (0 + (-1)*sqrt(4*b))/(2)",
    ),
    (
        SQUARE,
        Which::Lower,
        false,
        "b >= 0: (0 + (1)*sqrt(4*b))/(2)",
    ),
    // b*x + c of degree one, and x^2 - 2
    (
        [ZERO, B, C],
        Which::Linear,
        false,
        "b <> 0: (-c + (0)*sqrt(0))/(b)",
    ),
    (
        [ONE, ZERO, [0, 0, 0, -2]],
        Which::Upper,
        false,
        "true: (0 + (1)*sqrt(8))/(2)",
    ),
    // x^2 + 1 has neither a root of degree one nor one of degree two
    ([ONE, ZERO, ONE], Which::Linear, false, "none"),
    ([ONE, ZERO, ONE], Which::Lower, false, "none"),
];

#[test]
fn gives_guards_and_points(rt: HostRuntime) {
    for (numbers, which, plus, want) in GUARDS {
        assert!(rt; is_found(rt.alloc(), *numbers, *which, *plus, want));
    }
}
