//! The value of a polynomial of degree at most two at a root.

ghost use Rattle.std.specs.Prelude.{ℤ, pos, ◌≡◌, ◌≤◌, IfOk};
ghost use Rattle.qe_poly.specs.Polynomial as spec;
ghost use Rattle.qe_halt.specs.Outcome.{IsAnswer, IsOutcome};
ghost use Rattle.qe_poly.specs.Value.{scaled};
ghost use Rattle.qe_poly.specs.Coefficients.{degree_in};
ghost use Rattle.qe_root.specs.Value as meaning;

use crate::point::RootPoint;
use qe_coef::Coef;
use qe_poly::{Poly, PolyStop, Var};
use std::alloc::Global;

/// The product of three polynomials, from the left.
pub fn triple(alloc: Global, a: &Poly, b: &Poly, c: &Poly) -> Result<Poly, PolyStop>
    ensures { IsAnswer
        (meaning.triple_limit a.now b.now c.now) (meaning.triple a.now b.now c.now) result }
{
    a.mul(alloc, b)?.mul(alloc, c)
}

/// `p^2 + q^2*r`.
fn square(alloc: Global, point: &RootPoint) -> Result<Poly, PolyStop>
    ensures { IsAnswer (meaning.square_limit point.now) (meaning.square point.now) result }
{
    let plain = point.p.mul(alloc, &point.p)?;
    let root = triple(alloc, &point.q, &point.q, &point.r)?;
    plain.add(alloc, &root)
}

/// `alpha*(p^2 + q^2*r)`; nothing is computed where `alpha` is 0.
fn quadratic_term(alloc: Global, alpha: &Poly, point: &RootPoint) -> Result<Poly, PolyStop>
    ensures { IsAnswer (meaning.quadratic_term_limit alpha.now point.now)
        (spec.product alpha.now (meaning.square point.now)) result }
{
    if alpha.is_zero() {
        return Ok(Poly::constant(alloc, Coef::zero())?);
    }
    alpha.mul(alloc, &square(alloc, point)?)
}

/// `2*alpha*p*q`; nothing is computed where `alpha` is 0.
fn double_term(alloc: Global, alpha: &Poly, point: &RootPoint) -> Result<Poly, PolyStop>
    ensures { IsAnswer (meaning.double_term_limit alpha.now point.now)
        (scaled (pos 2) (meaning.triple alpha.now point.now.p point.now.q)) result }
{
    if alpha.is_zero() {
        return Ok(Poly::constant(alloc, Coef::zero())?);
    }
    triple(alloc, alpha, &point.p, &point.q)?.scale(alloc, Coef::small(2))
}

/// `A = alpha*(p^2 + q^2*r) + beta*p*s + gamma*s^2`, with all terms before the sums.
fn plain_part(
    alloc: Global,
    alpha: &Poly,
    beta: &Poly,
    gamma: &Poly,
    point: &RootPoint,
) -> Result<Poly, PolyStop>
    ensures { IsAnswer (meaning.plain_part_limit alpha.now beta.now gamma.now point.now)
        (meaning.plain_part alpha.now beta.now gamma.now point.now) result }
{
    let quadratic_term = quadratic_term(alloc, alpha, point)?;
    let linear_term = triple(alloc, beta, &point.p, &point.s)?;
    let divisor = point.s.mul(alloc, &point.s)?;
    let constant_term = gamma.mul(alloc, &divisor)?;
    quadratic_term
        .add(alloc, &linear_term)?
        .add(alloc, &constant_term)
}

/// `B = 2*alpha*p*q + beta*q*s`.
fn root_part(alloc: Global, alpha: &Poly, beta: &Poly, point: &RootPoint) -> Result<Poly, PolyStop>
    ensures { IsAnswer (meaning.root_part_limit alpha.now beta.now point.now)
        (meaning.root_part alpha.now beta.now point.now) result }
{
    let double_term = double_term(alloc, alpha, point)?;
    let linear_term = triple(alloc, beta, &point.q, &point.s)?;
    double_term.add(alloc, &linear_term)
}

/// The polynomials `A` and `B` of the other variables with `s^2*f = A + B*sqrt(r)` at
/// `x = (p + q*sqrt(r))/s`, wherever `s` is not 0 and `r` not negative; after Weispfenning (1997).
/// The degree in `x` is at most 2. With `f = alpha*x^2 + beta*x + gamma` the operations are, in
/// this order, those of `alpha*(p^2 + q^2*r)`, `beta*p*s` and `gamma*s^2`, the two sums to `A`,
/// those of `2*alpha*p*q` and `beta*q*s`, and the sum to `B`; what `alpha` is multiplied by is left
/// out where `alpha` is 0. The first limit that an operation meets is the answer.
pub fn at_root(
    alloc: Global,
    poly: &Poly,
    x: Var,
    point: &RootPoint,
) -> Result<(Poly, Poly), PolyStop>
    requires { degree_in x.0 poly.now ≤ 2 }
    ensures exact { IsOutcome (meaning.value_limit poly.now x.0 point.now)
        (λ parts. (parts.0 ≡ meaning.plain_part_of poly.now x.0 point.now)
        × (parts.1 ≡ meaning.root_part_of poly.now x.0 point.now)) result }
    ensures truth { IfOk result (λ parts. meaning.AreParts poly.now x.0 point.now parts.0 parts.1) }
{
    let coefficients = poly.coeffs_in(alloc, x)?;
    let [alpha, beta, gamma] = &coefficients;
    let plain = plain_part(alloc, alpha, beta, gamma, point)?;
    let root = root_part(alloc, alpha, beta, point)?;
    Ok((plain, root))
}
