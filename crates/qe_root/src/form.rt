//! The formula for the sign of `A + B*sqrt(r)`, by the signs of `A`, `B`, `A*B` and
//! `N = A^2 - B^2*r`.

ghost use Rattle.std.specs.Prelude.{◌≡◌, IfOk};
ghost use Rattle.qe_poly.specs.Polynomial as spec;
ghost use Rattle.qe_halt.specs.Outcome.{IsAnswer, IsOutcome};
ghost use Rattle.qe_form.specs.Signs.{IsProper};
ghost use Rattle.qe_form.specs.Tree.{tree};
ghost use Rattle.qe_root.specs.Shape as shape;
ghost use Rattle.qe_root.specs.SignForm as meaning;

use crate::value::triple;
use crate::{Form, OutOfMemory, Poly, PolyStop, Signs};
use std::alloc::Global;

/// The formula for `=`, or that for `<>`, from `A*B` and `N`.
fn zero_form(alloc: Global, product: Poly, norm: Poly, signs: Signs) -> Result<Form, OutOfMemory>
    ensures { IfOk result
        (λ f. tree f ≡ shape.formula (meaning.zero_shape signs.zero product norm)) }
{
    if signs.has_zero() {
        let apart = Form::atom(product, Signs::LESS_OR_EQUAL);
        Form::both(alloc, apart, Form::atom(norm, Signs::EQUAL))
    } else {
        let alike = Form::atom(product, Signs::GREATER);
        Form::either(alloc, alike, Form::atom(norm, Signs::NOT_EQUAL))
    }
}

/// The formula for `<=`, from `A`, `B` and `N`.
fn at_most_form(alloc: Global, plain: Poly, root: Poly, norm: Poly) -> Result<Form, OutOfMemory>
    ensures { IfOk result (λ f. tree f ≡ shape.formula (meaning.at_most_shape plain root norm)) }
{
    let at_most = Signs::LESS_OR_EQUAL;
    let at_least = Form::atom(norm.copy(alloc)?, Signs::GREATER_OR_EQUAL);
    let by_plain = Form::both(alloc, Form::atom(plain, at_most), at_least)?;
    let by_root = Form::both(alloc, Form::atom(root, at_most), Form::atom(norm, at_most))?;
    Form::either(alloc, by_plain, by_root)
}

/// The formula for `<`, from `A`, `B` and `N`.
fn less_form(alloc: Global, plain: Poly, root: Poly, norm: Poly) -> Result<Form, OutOfMemory>
    ensures { IfOk result (λ f. tree f ≡ shape.formula (meaning.less_shape plain root norm)) }
{
    let less = Signs::LESS;
    let more = Form::atom(norm.copy(alloc)?, Signs::GREATER);
    let by_plain = Form::both(alloc, Form::atom(plain.copy(alloc)?, less), more)?;
    let rest = Form::either(alloc, Form::atom(plain, less), Form::atom(norm, less))?;
    let by_root = Form::both(alloc, Form::atom(root, Signs::LESS_OR_EQUAL), rest)?;
    Form::either(alloc, by_plain, by_root)
}

/// `N = A^2 - B^2*r`.
fn norm(alloc: Global, plain: &Poly, root: &Poly, radicand: &Poly) -> Result<Poly, PolyStop>
    ensures { IsAnswer (meaning.norm_limit plain.now root.now radicand.now)
        (meaning.norm plain.now root.now radicand.now) result }
{
    let square = plain.mul(alloc, plain)?;
    let root_square = triple(alloc, root, root, radicand)?;
    square.sub(alloc, &root_square)
}

/// The polynomial, or its negative where plus is in the set.
fn facing(alloc: Global, poly: &Poly, signs: Signs) -> Result<Poly, OutOfMemory>
    ensures { IfOk result (λ p. p ≡ meaning.facing spec.negative signs poly.now) }
{
    if signs.has_plus() {
        poly.neg(alloc)
    } else {
        poly.copy(alloc)
    }
}

/// The formula for `=`, or that for `<>`, by `A*B` first and then `N`.
fn two_sided_form(
    alloc: Global,
    plain: &Poly,
    root: &Poly,
    radicand: &Poly,
    signs: Signs,
) -> Result<Form, PolyStop>
    ensures { IsOutcome (meaning.two_sided_limit plain.now root.now radicand.now)
        (λ f. tree f ≡ shape.formula (meaning.zero_shape signs.zero
        (spec.product plain.now root.now) (meaning.norm plain.now root.now radicand.now))) result }
{
    let product = plain.mul(alloc, root)?;
    let norm = norm(alloc, plain, root, radicand)?;
    Ok(zero_form(alloc, product, norm, signs)?)
}

/// The formula for `<` or `<=`; for `>` and `>=` it is that with `-A` and `-B`.
fn one_sided_form(
    alloc: Global,
    plain: &Poly,
    root: &Poly,
    radicand: &Poly,
    signs: Signs,
) -> Result<Form, PolyStop>
    ensures { IsOutcome (meaning.norm_limit plain.now root.now radicand.now)
        (λ f. tree f ≡ shape.formula (meaning.side_shape signs.zero
        (meaning.facing spec.negative signs plain.now) (meaning.facing spec.negative signs root.now)
        (meaning.norm plain.now root.now radicand.now))) result }
{
    let norm = norm(alloc, plain, root, radicand)?;
    let plain = facing(alloc, plain, signs)?;
    let root = facing(alloc, root, signs)?;
    if signs.has_zero() {
        Ok(at_most_form(alloc, plain, root, norm)?)
    } else {
        Ok(less_form(alloc, plain, root, norm)?)
    }
}

/// The formula stating that the sign of `a + b*sqrt(r)` is in the set, wherever `r` is not
/// negative; after Weispfenning (1997). The set is neither empty nor full. Where `b` is 0 the
/// formula is the atom of `a`. Else, with `N = a^2 - b^2*r`, it is
///
/// - for `=`: `a*b <= 0 and N = 0`, and for `<>` the opposite;
/// - for `<=`: `[a <= 0 and N >= 0] or [b <= 0 and N <= 0]`;
/// - for `<`: `[a < 0 and N > 0] or [b <= 0 and [a < 0 or N < 0]]`;
/// - for `>=` and `>`: those of `<=` and `<` with `-a` and `-b`.
///
/// The operations are, in this order, `a*b` for `=` and `<>` alone, `a*a`, `b*b`, that times `r`,
/// and the difference. The first limit that an operation meets is the answer.
pub fn sign_form(
    alloc: Global,
    a: &Poly,
    b: &Poly,
    r: &Poly,
    signs: Signs,
) -> Result<Form, PolyStop>
    requires { IsProper signs }
    ensures exact { IsOutcome (meaning.sign_limit a.now b.now r.now signs)
        (λ f. tree f ≡ meaning.sign_formula a.now b.now r.now signs) result }
    ensures truth { IfOk result (λ f. meaning.IsSignForm a.now b.now r.now signs (tree f)) }
{
    if b.is_zero() {
        Ok(Form::atom(a.copy(alloc)?, signs))
    } else if signs.is_even() {
        two_sided_form(alloc, a, b, r, signs)
    } else {
        one_sided_form(alloc, a, b, r, signs)
    }
}
