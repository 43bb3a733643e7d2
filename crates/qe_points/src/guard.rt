//! The guard and the point of a candidate.

ghost use Rattle.std.specs.Prelude.{◌≡◌, pos, IfOk, IfSome};
ghost use Rattle.qe_poly.specs.Polynomial as spec;
ghost use Rattle.qe_halt.specs.Outcome.{IsOutcome};
ghost use Rattle.qe_poly.specs.Coefficients.{coefficient_in};
ghost use Rattle.qe_poly.specs.Value.{scaled};
ghost use Rattle.qe_form.specs.Plain.{IsPlain};
ghost use Rattle.qe_simp.specs.Meaning.{Keeps};
ghost use Rattle.qe_simp.specs.Shape.{IsSimplified};
ghost use Rattle.qe_form.specs.Tree.{tree};
ghost use Rattle.qe_points.specs.Candidates.{is_above};
ghost use Rattle.qe_points.specs.Guard as meaning;
ghost use Rattle.qe_points.specs.Guarded.{HasRoot, IsGuardedBy, IsMade, IsSound, IsGuardAnswer};

use crate::candidate::Spot;
use crate::{Candidate, Form, OutOfMemory, Point, Poly, RootPoint, Stage, SubstStop, Var, Which};
use qe_coef::Coef;
use qe_form::Signs;
use qe_poly::PolyStop;
use qe_simp::simplify;
use std::alloc::Global;

/// A point with the condition under which it is one.
#[derive(Drop)]
pub struct GuardedPoint {
    pub guard: Form,
    pub point: Point,
}

/// A root with its guard, before the guard is simplified and the divisor turned.
#[derive(Drop)]
struct RootWithGuard {
    guard: Form,
    root: RootPoint,
}

/// The guard `b <> 0`, and for degree two `a = 0 and b <> 0`.
fn linear_guard(alloc: Global, poly: &Poly, x: Var, b: Poly) -> Result<Form, OutOfMemory>
    requires { b ≡ coefficient_in x.0 1 poly.now }
    ensures { IfOk result (λ f. tree f ≡ meaning.linear_guard x.0 poly.now) }
{
    let guard = Form::atom(b, Signs::NOT_EQUAL);
    if poly.degree_in(x) != 2 {
        return Ok(guard);
    }
    let a = poly.coefficient_in(alloc, x, 2)?;
    Form::both(alloc, Form::atom(a, Signs::EQUAL), guard)
}

/// The root `-c/b` with its guard.
fn linear_root(alloc: Global, poly: &Poly, x: Var) -> Result<RootWithGuard, OutOfMemory>
    ensures exact { IfOk result
        (IsMade (meaning.linear_guard x.0 poly.now) (meaning.linear_root x.0 poly.now)) }
    ensures canonical { IfOk result (λ _. spec.IsPolynomial poly.now) }
{
    let b = poly.coefficient_in(alloc, x, 1)?;
    let c = poly.coefficient_in(alloc, x, 0)?;
    let root = RootPoint {
        p: c.neg(alloc)?,
        q: Poly::constant(alloc, Coef::zero())?,
        r: Poly::constant(alloc, Coef::zero())?,
        s: b.copy(alloc)?,
    };
    let guard = linear_guard(alloc, poly, x, b)?;
    Ok(RootWithGuard { guard, root })
}

/// `d = b^2 - 4*(a*c)`, and `2*a`.
fn quadratic_parts(alloc: Global, a: &Poly, b: &Poly, c: &Poly) -> Result<(Poly, Poly), PolyStop>
    ensures { IsOutcome (meaning.quadratic_limit_by a.now b.now c.now)
        (λ r. (r.0 ≡ meaning.discriminant_by a.now b.now c.now)
        × (r.1 ≡ scaled (pos 2) a.now)) result }
{
    let square = b.mul(alloc, b)?;
    let product = a.mul(alloc, c)?.scale(alloc, Coef::small(4))?;
    let discriminant = square.sub(alloc, &product)?;
    let divisor = a.scale(alloc, Coef::small(2))?;
    Ok((discriminant, divisor))
}

/// The root `(-b + q*sqrt(d))/(2*a)` with its guard `a <> 0 and d >= 0`.
fn quadratic_root(alloc: Global, poly: &Poly, x: Var, q: Poly) -> Result<RootWithGuard, PolyStop>
    ensures exact { IsOutcome (meaning.quadratic_limit x.0 poly.now)
        (IsMade (meaning.quadratic_guard x.0 poly.now)
        (meaning.quadratic_root x.0 poly.now q)) result }
    ensures canonical { IfOk result (λ _. spec.IsPolynomial poly.now) }
{
    let a = poly.coefficient_in(alloc, x, 2)?;
    let b = poly.coefficient_in(alloc, x, 1)?;
    let c = poly.coefficient_in(alloc, x, 0)?;
    let (r, s) = quadratic_parts(alloc, &a, &b, &c)?;
    let p = b.neg(alloc)?;
    let quadratic = Form::atom(a, Signs::NOT_EQUAL);
    let real = Form::atom(r.copy(alloc)?, Signs::GREATER_OR_EQUAL);
    let guard = Form::both(alloc, quadratic, real)?;
    Ok(RootWithGuard {
        guard,
        root: RootPoint { p, q, r, s },
    })
}

/// The root of the kind with its guard.
fn root(alloc: Global, poly: &Poly, x: Var, which: Which) -> Result<RootWithGuard, PolyStop>
    ensures exact { IsOutcome (meaning.root_limit x.0 poly.now which)
        (IsMade (meaning.root_guard x.0 poly.now which)
        (meaning.root_of_kind x.0 poly.now which)) result }
    ensures canonical { IfOk result (λ _. spec.IsPolynomial poly.now) }
{
    match which {
        Which::Linear => Ok(linear_root(alloc, poly, x)?),
        Which::Upper => quadratic_root(alloc, poly, x, Poly::constant(alloc, Coef::small(1))?),
        Which::Lower => quadratic_root(alloc, poly, x, Poly::constant(alloc, Coef::small(-1))?),
    }
}

/// The same root, with a divisor that is no negative number.
fn turned(alloc: Global, root: RootPoint) -> Result<RootPoint, OutOfMemory>
    ensures { IfOk result (λ k. k ≡ meaning.turned root) }
{
    if !root.s.is_negative() {
        return Ok(root);
    }
    let RootPoint { p, q, r, s } = root;
    Ok(RootPoint {
        p: p.neg(alloc)?,
        q: q.neg(alloc)?,
        r,
        s: s.neg(alloc)?,
    })
}

/// The simplified guard with the root, or with what is just above it; `None` where that guard is
/// `False`.
fn guarded_root(
    alloc: Global,
    found: RootWithGuard,
    spot: Spot,
) -> Result<Option<GuardedPoint>, OutOfMemory>
    ensures exact { IfOk result
        (IsGuardedBy (tree found.guard)
        (meaning.at_or_above (is_above spot) (meaning.turned found.root))) }
    ensures kept { IfOk result (λ o. IfSome o (λ g. Keeps (tree found.guard) (tree g.guard))) }
    ensures plain { IfOk result
        (λ o. IfSome o (λ g. IsPlain (tree found.guard) → IsSimplified (tree g.guard))) }
{
    let RootWithGuard { guard, root } = found;
    let guard = simplify(alloc, guard)?;
    if guard.is_false() {
        return Ok(None);
    }
    let root = turned(alloc, root)?;
    let point = match spot {
        Spot::At => Point::Root(root),
        Spot::Above => Point::RootPlus(root),
    };
    Ok(Some(GuardedPoint { guard, point }))
}

/// The simplified guard and the point of a candidate; `None` where the simplified guard is `False`.
/// With the candidate's polynomial `a*x^2 + b*x + c` and `d = b^2 - 4*a*c`:
///
/// - `Linear`: the guard is `b <> 0`, and with degree two `a = 0 and b <> 0`; the root is `-c/b`;
/// - `Upper`: the guard is `a <> 0 and d >= 0`; the root is `(-b + sqrt(d))/(2*a)`;
/// - `Lower`: the same with `(-b - sqrt(d))/(2*a)`;
/// - minus infinity: the guard is `True`.
///
/// Where the divisor is a negative number it is negated, and `p` and `q` with it. The operations of
/// `Upper` and `Lower` are, in this order, `b*b`, `a*c`, 4 times that, the difference `d`, and 2
/// times `a`. The first limit that one of them meets is the answer, with the candidate's atom. The
/// polynomial has degree one or two in the variable, and two for `Upper` and `Lower`. Where the
/// guard is true the point has a place, where the polynomial is zero.
pub fn guarded(
    alloc: Global,
    candidate: &Candidate,
    x: Var,
) -> Result<Option<GuardedPoint>, SubstStop>
    requires { HasRoot x.0 candidate.now }
    ensures exact { IsGuardAnswer x.0 candidate.now result }
    ensures sound { IfOk result
        (λ found. IfSome found (λ g. IsSound x.0 candidate.now (tree g.guard) g.point)) }
{
    match candidate {
        Candidate::MinusInf => Ok(Some(GuardedPoint {
            guard: Form::True,
            point: Point::MinusInf,
        })),
        Candidate::Root {
            poly,
            atom,
            which,
            plus,
        } => match root(alloc, poly, x, *which) {
            Ok(found) => Ok(guarded_root(alloc, found, Spot::of(*plus))?),
            Err(PolyStop::Limit(limit)) => Err(SubstStop::At {
                atom: *atom,
                stage: Stage::Guard,
                limit,
            }),
            Err(PolyStop::OutOfMemory) => Err(SubstStop::OutOfMemory),
        },
    }
}
