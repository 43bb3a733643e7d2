//! Polynomials: each operation that needs memory, once to its end. Constants, powers, sums, products and multiples build what
//! the others are given.

use crate::built::{Linear, ONE, X, ZERO, linear, quadratic};
use crate::spelled::{is_text, push_poly};
use qe_poly::{Poly, PolyStop, Var};
use std::alloc::Global;

#[derive(Clone, Copy)]
enum Operation {
    Copy,
    /// Less 1.
    Sub,
    Neg,
    Primitive,
    /// The derivative by `x`.
    Derivative,
    /// The coefficient of `x`.
    Middle,
    /// With `c` in the place of `x`.
    Renamed,
}

/// `4*b*x - 2*a*x^2`
const GIVEN: [Linear; 3] = [[-2, 0, 0, 0], [0, 4, 0, 0], ZERO];

fn difference(alloc: Global, poly: &Poly) -> Result<Poly, PolyStop> {
    poly.sub(alloc, &linear(alloc, ONE)?)
}

/// The quotient by the content, which has to be told as negated.
fn primitive(alloc: Global, poly: &Poly) -> Result<Poly, PolyStop> {
    let (quotient, is_negated) = poly.primitive(alloc)?;
    if is_negated {
        Ok(quotient)
    } else {
        Err(PolyStop::OutOfMemory)
    }
}

fn middle(alloc: Global, poly: &Poly) -> Result<Poly, PolyStop> {
    if poly.degree_in(X) > 2 {
        return Err(PolyStop::OutOfMemory);
    }
    let parts = poly.coeffs_in(alloc, X)?;
    Ok(parts[1].copy(alloc)?)
}

fn applied(alloc: Global, operation: Operation, poly: &Poly) -> Result<Poly, PolyStop> {
    match operation {
        Operation::Copy => Ok(poly.copy(alloc)?),
        Operation::Sub => difference(alloc, poly),
        Operation::Neg => Ok(poly.neg(alloc)?),
        Operation::Primitive => primitive(alloc, poly),
        Operation::Derivative => poly.derivative(alloc, X),
        Operation::Middle => middle(alloc, poly),
        Operation::Renamed => Ok(poly.renamed(alloc, X, Var(2))?),
    }
}

fn result(alloc: Global, operation: Operation) -> Result<Poly, PolyStop> {
    let given = quadratic(alloc, GIVEN)?;
    applied(alloc, operation, &given)
}

fn result_text(alloc: Global, operation: Operation) -> Result<String, PolyStop> {
    let poly = result(alloc, operation)?;
    let mut out = String::new(alloc);
    push_poly(&mut out, &poly)?;
    Ok(out)
}

const RESULTS: &[(Operation, &str)] = &[
    (Operation::Copy, "-2*a*x^2 + 4*b*x"),
    (Operation::Sub, "-2*a*x^2 + 4*b*x - 1"),
    (Operation::Neg, "2*a*x^2 - 4*b*x"),
    (Operation::Primitive, "a*x^2 - 2*b*x"),
    (Operation::Derivative, "-4*a*x + 4*b"),
    (Operation::Middle, "4*b"),
    (Operation::Renamed, "-2*a*c^2 + 4*b*c"),
];

#[test]
fn runs_each_operation(rt: HostRuntime) {
    for (operation, want) in RESULTS {
        assert!(rt; is_text(result_text(rt.alloc(), *operation), want));
    }
}
