//! Values at roots and formulas for signs, worked out by hand. The variables are `a`, `b`, `c` and `x`, numbered from 0.

use crate::built::{
    A, AT_LEAST, AT_MOST, B, C, EQUAL, LESS, MORE, MOST, NOT_EQUAL, ONE, X, ZERO, linear,
    quadratic, root, signs_of,
};
use crate::spelled::{is_text, push_form, push_poly};
use qe_root::{Form, OutOfMemory, Poly, PolyStop, at_root, sign_form};
use std::alloc::Global;

fn form_text(alloc: Global, form: &Form) -> Result<String, OutOfMemory> {
    let mut out = String::new(alloc);
    push_form(&mut out, form)?;
    Ok(out)
}

/// The two parts of the value, as `A + [B]*sqrt(r)`.
fn parts_text(alloc: Global, parts: &(Poly, Poly)) -> Result<String, OutOfMemory> {
    let mut out = String::new(alloc);
    push_poly(&mut out, &parts.0)?;
    out.push_str(" + [")?;
    push_poly(&mut out, &parts.1)?;
    out.push_str("]*sqrt(r)")?;
    Ok(out)
}

/// The two parts of the value of the polynomial at the root, by their coefficients.
fn value(
    alloc: Global,
    coefficients: [[i128; 4]; 3],
    parts: [[i128; 4]; 4],
) -> Result<(Poly, Poly), PolyStop> {
    let f = quadratic(alloc, coefficients)?;
    let point = root(alloc, parts)?;
    if f.degree_in(X) <= 2 {
        at_root(alloc, &f, X, &point)
    } else {
        Err(PolyStop::OutOfMemory)
    }
}

fn value_text(
    alloc: Global,
    coefficients: [[i128; 4]; 3],
    parts: [[i128; 4]; 4],
) -> Result<String, PolyStop> {
    let value = value(alloc, coefficients, parts)?;
    Ok(parts_text(alloc, &value)?)
}

// The coefficients of x^2, x and 1, then p, q, r and s, and the two parts of the value.
const VALUES: &[([[i128; 4]; 3], [[i128; 4]; 4], &str)] = &[
    // x^2 - 2 at sqrt(8)/2
    (
        [ONE, ZERO, [0, 0, 0, -2]],
        [ZERO, ONE, [0, 0, 0, 8], [0, 0, 0, 2]],
        "0 + [0]*sqrt(r)",
    ),
    // x^2 - 3*x + 1 at its root (3 + sqrt(5))/2: 14 - 18 + 4, and 6 - 6
    (
        [ONE, [0, 0, 0, -3], ONE],
        [[0, 0, 0, 3], ONE, [0, 0, 0, 5], [0, 0, 0, 2]],
        "0 + [0]*sqrt(r)",
    ),
    // x^2 + 1 there: 14 + 4, and 6
    (
        [ONE, ZERO, ONE],
        [[0, 0, 0, 3], ONE, [0, 0, 0, 5], [0, 0, 0, 2]],
        "18 + [6]*sqrt(r)",
    ),
    // 2*x^2 + x - 1 at 2*sqrt(3) - 1: 26 - 1 - 1, and -8 + 2
    (
        [[0, 0, 0, 2], ONE, [0, 0, 0, -1]],
        [ONE, [0, 0, 0, -2], [0, 0, 0, 3], [0, 0, 0, -1]],
        "24 + [-6]*sqrt(r)",
    ),
    // at 0, and at a + b*sqrt(c)
    ([A, B, C], [ZERO, ZERO, ZERO, ONE], "c + [0]*sqrt(r)"),
    ([ZERO, ONE, ZERO], [A, B, C, ONE], "a + [b]*sqrt(r)"),
    (
        [ONE, ZERO, ZERO],
        [A, B, C, ONE],
        "a^2 + b^2*c + [2*a*b]*sqrt(r)",
    ),
    // divisors that are polynomials
    ([ONE, ZERO, ZERO], [ZERO, ONE, C, A], "c + [0]*sqrt(r)"),
    (
        [ZERO, B, C],
        [ONE, [0, 0, 0, -1], [0, 0, 0, 5], A],
        "a^2*c + a*b + [-a*b]*sqrt(r)",
    ),
    (
        [ZERO, ZERO, [0, 0, 0, 3]],
        [A, B, C, A],
        "3*a^2 + [0]*sqrt(r)",
    ),
    (
        [ZERO, A, ONE],
        [[0, 0, 0, -1], ZERO, ZERO, A],
        "0 + [0]*sqrt(r)",
    ),
    (
        [ONE, ZERO, ZERO],
        [ONE, ONE, C, [1, 1, 0, 0]],
        "c + 1 + [2]*sqrt(r)",
    ),
    (
        [ONE, ZERO, C],
        [ZERO, ONE, C, [1, 1, 0, 0]],
        "a^2*c + 2*a*b*c + b^2*c + c + [0]*sqrt(r)",
    ),
    (
        [ZERO, ONE, [0, 0, 0, -1]],
        [A, ONE, C, [0, 0, 0, 2]],
        "2*a - 4 + [2]*sqrt(r)",
    ),
    // nothing that only a coefficient of x^2 needs is computed without one
    (
        [ZERO, ZERO, [0, 0, 0, 3]],
        [[0, 0, 0, MOST], [0, 0, 0, MOST], [0, 0, 0, MOST], ONE],
        "3 + [0]*sqrt(r)",
    ),
];

#[test]
fn gives_the_value_at_a_root(rt: HostRuntime) {
    for (coefficients, parts, want) in VALUES {
        assert!(rt; is_text(value_text(rt.alloc(), *coefficients, *parts), want));
    }
}

/// The text of the form for `A + B*sqrt(r)`.
fn sign_text(
    alloc: Global,
    plain: [i128; 4],
    part: [i128; 4],
    radicand: [i128; 4],
    bits: u8,
) -> Result<String, PolyStop> {
    let a = linear(alloc, plain)?;
    let b = linear(alloc, part)?;
    let r = linear(alloc, radicand)?;
    let signs = signs_of(bits);
    if 0 < signs.bits() && signs.bits() < 7 {
        let form = sign_form(alloc, &a, &b, &r, signs)?;
        Ok(form_text(alloc, &form)?)
    } else {
        Ok(String::new(alloc))
    }
}

// A, B and r, and for each set of signs the form.
const FORMS: &[([i128; 4], [i128; 4], [i128; 4], u8, &str)] = &[
    // without the root: the atom of A, also where A is a number
    (A, ZERO, C, AT_MOST, "a <= 0"),
    (A, ZERO, C, LESS, "a < 0"),
    (A, ZERO, C, EQUAL, "a = 0"),
    (A, ZERO, C, NOT_EQUAL, "a <> 0"),
    (A, ZERO, C, MORE, "a > 0"),
    (A, ZERO, C, AT_LEAST, "a >= 0"),
    ([0, 0, 0, -5], ZERO, [0, 0, 0, 2], LESS, "-5 < 0"),
    (ZERO, ZERO, A, NOT_EQUAL, "0 <> 0"),
    // and nothing is computed there
    (
        [0, 0, 0, MOST],
        ZERO,
        [0, 0, 0, MOST],
        EQUAL,
        "170141183460469231731687303715884105727 = 0",
    ),
    // N = a^2 - b^2*c
    (A, B, C, EQUAL, "[a*b <= 0 and a^2 - b^2*c = 0]"),
    (A, B, C, NOT_EQUAL, "[a*b > 0 or a^2 - b^2*c <> 0]"),
    (
        A,
        B,
        C,
        AT_MOST,
        "[[a <= 0 and a^2 - b^2*c >= 0] or [b <= 0 and a^2 - b^2*c <= 0]]",
    ),
    (
        A,
        B,
        C,
        LESS,
        "[[a < 0 and a^2 - b^2*c > 0] or [b <= 0 and [a < 0 or a^2 - b^2*c < 0]]]",
    ),
    (
        A,
        B,
        C,
        AT_LEAST,
        "[[-a <= 0 and a^2 - b^2*c >= 0] or [-b <= 0 and a^2 - b^2*c <= 0]]",
    ),
    (
        A,
        B,
        C,
        MORE,
        "[[-a < 0 and a^2 - b^2*c > 0] or [-b <= 0 and [-a < 0 or a^2 - b^2*c < 0]]]",
    ),
    // N = (a + 1)^2 - 4*3
    (
        [1, 0, 0, 1],
        [0, 0, 0, 2],
        [0, 0, 0, 3],
        EQUAL,
        "[2*a + 2 <= 0 and a^2 + 2*a - 11 = 0]",
    ),
    (
        [1, 0, 0, 1],
        [0, 0, 0, 2],
        [0, 0, 0, 3],
        NOT_EQUAL,
        "[2*a + 2 > 0 or a^2 + 2*a - 11 <> 0]",
    ),
    (
        [1, 0, 0, 1],
        [0, 0, 0, 2],
        [0, 0, 0, 3],
        AT_MOST,
        "[[a + 1 <= 0 and a^2 + 2*a - 11 >= 0] or [2 <= 0 and a^2 + 2*a - 11 <= 0]]",
    ),
    (
        [1, 0, 0, 1],
        [0, 0, 0, 2],
        [0, 0, 0, 3],
        LESS,
        "[[a + 1 < 0 and a^2 + 2*a - 11 > 0] or [2 <= 0 and [a + 1 < 0 or a^2 + 2*a - 11 < 0]]]",
    ),
    (
        [1, 0, 0, 1],
        [0, 0, 0, 2],
        [0, 0, 0, 3],
        AT_LEAST,
        "[[-a - 1 <= 0 and a^2 + 2*a - 11 >= 0] or [-2 <= 0 and a^2 + 2*a - 11 <= 0]]",
    ),
    (
        [1, 0, 0, 1],
        [0, 0, 0, 2],
        [0, 0, 0, 3],
        MORE,
        "[[-a - 1 < 0 and a^2 + 2*a - 11 > 0] or [-2 <= 0 and [-a - 1 < 0 or a^2 + 2*a - 11 < 0]]]",
    ),
    // the root of 0, and the root alone
    (A, B, ZERO, EQUAL, "[a*b <= 0 and a^2 = 0]"),
    (
        A,
        B,
        ZERO,
        AT_MOST,
        "[[a <= 0 and a^2 >= 0] or [b <= 0 and a^2 <= 0]]",
    ),
    (ZERO, ONE, C, EQUAL, "[0 <= 0 and -c = 0]"),
    (
        ZERO,
        ONE,
        C,
        LESS,
        "[[0 < 0 and -c > 0] or [1 <= 0 and [0 < 0 or -c < 0]]]",
    ),
    (
        ZERO,
        ONE,
        C,
        MORE,
        "[[0 < 0 and -c > 0] or [-1 <= 0 and [0 < 0 or -c < 0]]]",
    ),
    // N = (a - b)^2 - (a + b)
    (
        [1, -1, 0, 0],
        [0, 0, 0, -1],
        [1, 1, 0, 0],
        NOT_EQUAL,
        "[-a + b > 0 or a^2 - 2*a*b - a + b^2 - b <> 0]",
    ),
    (
        [1, -1, 0, 0],
        [0, 0, 0, -1],
        [1, 1, 0, 0],
        AT_LEAST,
        "[[-a + b <= 0 and a^2 - 2*a*b - a + b^2 - b >= 0] or [1 <= 0 and a^2 - 2*a*b - a + b^2 - b <= 0]]",
    ),
];

#[test]
fn gives_the_form_of_a_sign(rt: HostRuntime) {
    for (plain, part, radicand, bits, want) in FORMS {
        assert!(rt; is_text(sign_text(rt.alloc(), *plain, *part, *radicand, *bits), want));
    }
}
