//! Substitutions worked out by hand. The variables are `a`, `b`, `c` and `x`, numbered from 0, and `x` is substituted.

use crate::built::{
    A, AT_LEAST, AT_MOST, B, C, EQUAL, LESS, Linear, MORE, NOT_EQUAL, ONE, X, ZERO, quadratic,
    root, signs_of,
};
use crate::spelled::{is_text, push_form};
use qe_form::Atom;
use qe_subst::{Form, OutOfMemory, Point, Poly, PolyStop, SubstStop, substitute};
use std::alloc::Global;

const MINUS_A: Linear = [-1, 0, 0, 0];

const MINUS_B: Linear = [0, -1, 0, 0];

const TWICE_B: Linear = [0, 2, 0, 0];

/// The formula; no limit is met.
fn outcome_text(alloc: Global, outcome: Result<Form, SubstStop>) -> Result<String, OutOfMemory> {
    let mut out = String::new(alloc);
    match outcome {
        Ok(form) => push_form(&mut out, &form)?,
        Err(_) => out.push_str("stopped")?,
    }
    Ok(out)
}

/// What stands for one atom, as text.
fn atom_text(
    alloc: Global,
    poly: Poly,
    bits: u8,
    point: &Point,
    own: Option<&Poly>,
) -> Result<String, OutOfMemory> {
    let signs = signs_of(bits);
    let is_low = poly.degree_in(X) <= 2;
    let form = Form::Atom(Atom { poly, signs });
    if is_low && 0 < signs.bits() && signs.bits() < 7 {
        outcome_text(alloc, substitute(alloc, &form, X, point, own))
    } else {
        Ok(String::new(alloc))
    }
}

/// The root, or what is just above it.
fn point_of(alloc: Global, parts: [Linear; 4], plus: bool) -> Result<Point, PolyStop> {
    let root = root(alloc, parts)?;
    if plus {
        Ok(Point::RootPlus(root))
    } else {
        Ok(Point::Root(root))
    }
}

/// What stands for an atom at the point.
fn poly_text(
    alloc: Global,
    coefficients: [Linear; 3],
    bits: u8,
    point: &Point,
    own: Option<&Poly>,
) -> Result<String, PolyStop> {
    let poly = quadratic(alloc, coefficients)?;
    Ok(atom_text(alloc, poly, bits, point, own)?)
}

/// What stands for an atom at a root, or just above it.
fn root_text(
    alloc: Global,
    coefficients: [Linear; 3],
    bits: u8,
    parts: [Linear; 4],
    plus: bool,
) -> Result<String, PolyStop> {
    let point = point_of(alloc, parts, plus)?;
    poly_text(alloc, coefficients, bits, &point, None)
}

/// What stands for an atom at 0, or just above it, as the root of 2*b*x.
fn own_text(
    alloc: Global,
    coefficients: [Linear; 3],
    bits: u8,
    plus: bool,
) -> Result<String, PolyStop> {
    let own = quadratic(alloc, [ZERO, TWICE_B, ZERO])?;
    let point = point_of(alloc, [ZERO, ZERO, ZERO, TWICE_B], plus)?;
    poly_text(alloc, coefficients, bits, &point, Some(&own))
}

// At a, a root without a square root, and just above it: the coefficients of x^2, x and 1, the relation, and what stands for the atom.
const AT_A: &[([Linear; 3], u8, bool, &str)] = &[
    // x - b
    ([ZERO, ONE, MINUS_B], LESS, false, "a - b < 0"),
    ([ZERO, ONE, MINUS_B], AT_MOST, false, "a - b <= 0"),
    ([ZERO, ONE, MINUS_B], EQUAL, false, "a - b = 0"),
    ([ZERO, ONE, MINUS_B], NOT_EQUAL, false, "a - b <> 0"),
    ([ZERO, ONE, MINUS_B], AT_LEAST, false, "a - b >= 0"),
    ([ZERO, ONE, MINUS_B], MORE, false, "a - b > 0"),
    (
        [ZERO, ONE, MINUS_B],
        LESS,
        true,
        "[a - b < 0 or [a - b = 0 and 1 < 0]]",
    ),
    (
        [ZERO, ONE, MINUS_B],
        AT_MOST,
        true,
        "[a - b < 0 or [a - b = 0 and 1 <= 0]]",
    ),
    ([ZERO, ONE, MINUS_B], EQUAL, true, "[1 = 0 and -b = 0]"),
    ([ZERO, ONE, MINUS_B], NOT_EQUAL, true, "[1 <> 0 or -b <> 0]"),
    (
        [ZERO, ONE, MINUS_B],
        AT_LEAST,
        true,
        "[a - b > 0 or [a - b = 0 and 1 >= 0]]",
    ),
    (
        [ZERO, ONE, MINUS_B],
        MORE,
        true,
        "[a - b > 0 or [a - b = 0 and 1 > 0]]",
    ),
    // b*x^2 + c: its slopes are 2*b*x and 2*b
    ([B, ZERO, C], LESS, false, "a^2*b + c < 0"),
    ([B, ZERO, C], EQUAL, true, "[b = 0 and 0 = 0 and c = 0]"),
    (
        [B, ZERO, C],
        NOT_EQUAL,
        true,
        "[b <> 0 or 0 <> 0 or c <> 0]",
    ),
    (
        [B, ZERO, C],
        LESS,
        true,
        "[a^2*b + c < 0 or [a^2*b + c = 0 and [2*a*b < 0 or [2*a*b = 0 and 2*b < 0]]]]",
    ),
    (
        [B, ZERO, C],
        AT_LEAST,
        true,
        "[a^2*b + c > 0 or [a^2*b + c = 0 and [2*a*b > 0 or [2*a*b = 0 and 2*b >= 0]]]]",
    ),
    // an atom without x stays
    ([ZERO, ZERO, B], MORE, false, "b > 0"),
    ([ZERO, ZERO, B], MORE, true, "b > 0"),
];

#[test]
fn substitutes_a_quotient(rt: HostRuntime) {
    let parts = [A, ZERO, ZERO, ONE];
    for (coefficients, bits, plus, want) in AT_A {
        assert!(rt;
            is_text(
                root_text(rt.alloc(), *coefficients, *bits, parts, *plus),
                want
            )
        );
    }
}

// The same at b + sqrt(c), where the form for the sign of A + B*sqrt(c) is needed.
const AT_B_AND_ROOT_OF_C: &[([Linear; 3], u8, bool, &str)] = &[
    // x - a: A is b - a, B is 1
    (
        [ZERO, ONE, MINUS_A],
        EQUAL,
        false,
        "[-a + b <= 0 and a^2 - 2*a*b + b^2 - c = 0]",
    ),
    (
        [ZERO, ONE, MINUS_A],
        AT_MOST,
        false,
        "[[-a + b <= 0 and a^2 - 2*a*b + b^2 - c >= 0] or [1 <= 0 and a^2 - 2*a*b + b^2 - c <= 0]]",
    ),
    (
        [ZERO, ONE, MINUS_A],
        AT_MOST,
        true,
        "[[[-a + b < 0 and a^2 - 2*a*b + b^2 - c > 0] or [1 <= 0 and [-a + b < 0 or a^2 - 2*a*b + b^2 - c < 0]]] or [[-a + b <= 0 and a^2 - 2*a*b + b^2 - c = 0] and 1 <= 0]]",
    ),
    // x^2 - a: A is b^2 + c - a, B is 2*b
    (
        [ONE, ZERO, MINUS_A],
        NOT_EQUAL,
        false,
        "[-2*a*b + 2*b^3 + 2*b*c > 0 or a^2 - 2*a*b^2 - 2*a*c + b^4 - 2*b^2*c + c^2 <> 0]",
    ),
];

#[test]
fn substitutes_a_square_root(rt: HostRuntime) {
    let parts = [B, ONE, C, ONE];
    for (coefficients, bits, plus, want) in AT_B_AND_ROOT_OF_C {
        assert!(rt;
            is_text(
                root_text(rt.alloc(), *coefficients, *bits, parts, *plus),
                want
            )
        );
    }
}

// The coefficients of x^2, x and 1, the relation, and what stands for the atom below all numbers.
const BELOW: &[([Linear; 3], u8, &str)] = &[
    ([ZERO, A, B], LESS, "[a > 0 or [a = 0 and b < 0]]"),
    ([ZERO, A, B], AT_MOST, "[a > 0 or [a = 0 and b <= 0]]"),
    ([ZERO, A, B], EQUAL, "[a = 0 and b = 0]"),
    ([ZERO, A, B], NOT_EQUAL, "[a <> 0 or b <> 0]"),
    ([ZERO, A, B], AT_LEAST, "[a < 0 or [a = 0 and b >= 0]]"),
    ([ZERO, A, B], MORE, "[a < 0 or [a = 0 and b > 0]]"),
    (
        [A, B, C],
        LESS,
        "[a < 0 or [a = 0 and b > 0] or [a = 0 and b = 0 and c < 0]]",
    ),
    (
        [A, B, C],
        AT_MOST,
        "[a < 0 or [a = 0 and b > 0] or [a = 0 and b = 0 and c <= 0]]",
    ),
    ([A, B, C], EQUAL, "[a = 0 and b = 0 and c = 0]"),
    ([A, B, C], NOT_EQUAL, "[a <> 0 or b <> 0 or c <> 0]"),
    (
        [A, B, C],
        AT_LEAST,
        "[a > 0 or [a = 0 and b < 0] or [a = 0 and b = 0 and c >= 0]]",
    ),
    (
        [A, B, C],
        MORE,
        "[a > 0 or [a = 0 and b < 0] or [a = 0 and b = 0 and c > 0]]",
    ),
    ([ZERO, ZERO, C], EQUAL, "c = 0"),
];

#[test]
fn substitutes_minus_infinity(rt: HostRuntime) {
    for (coefficients, bits, want) in BELOW {
        assert!(rt;
            is_text(
                poly_text(rt.alloc(), *coefficients, *bits, &Point::MinusInf, None),
                want
            )
        );
    }
}

// The point is 0, as the root of 2*b*x. The coefficients of x^2, x and 1, the relation, and what stands for the atom.
const AT_OWN: &[([Linear; 3], u8, bool, &str)] = &[
    ([ZERO, TWICE_B, ZERO], LESS, false, "false"),
    ([ZERO, TWICE_B, ZERO], AT_MOST, false, "true"),
    ([ZERO, TWICE_B, ZERO], EQUAL, false, "true"),
    ([ZERO, TWICE_B, ZERO], NOT_EQUAL, false, "false"),
    (
        [ZERO, TWICE_B, ZERO],
        LESS,
        true,
        "[false or [true and 2*b < 0]]",
    ),
    (
        [ZERO, TWICE_B, ZERO],
        AT_LEAST,
        true,
        "[false or [true and 2*b >= 0]]",
    ),
    ([ZERO, TWICE_B, ZERO], EQUAL, true, "[2*b = 0 and 0 = 0]"),
    // it is the slope of b*x^2 + c, whose value at 0 is (2*b)^2*c over the square of the divisor
    ([B, ZERO, C], LESS, false, "4*b^2*c < 0"),
    (
        [B, ZERO, C],
        LESS,
        true,
        "[4*b^2*c < 0 or [4*b^2*c = 0 and [false or [true and 2*b < 0]]]]",
    ),
];

#[test]
fn knows_the_own_polynomial(rt: HostRuntime) {
    for (coefficients, bits, plus, want) in AT_OWN {
        assert!(rt; is_text(own_text(rt.alloc(), *coefficients, *bits, *plus), want));
    }
}
