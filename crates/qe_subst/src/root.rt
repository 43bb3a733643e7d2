//! At a root, and just above it.

ghost use Rattle.std.specs.Prelude.{◌≡◌, ◌≤◌, ◌<◌, suc, IfOk, option_copied};
ghost use Rattle.qe_root.specs.declared.stop.Stage.TheVariants as stage;
ghost use Rattle.qe_poly.specs.Coefficients.{degree_in, derivative};
ghost use Rattle.qe_poly.specs.Limits.{derivative_limit};
ghost use Rattle.qe_poly.specs.Polynomial.{IsPolynomial};
ghost use Rattle.qe_form.specs.Making as making;
ghost use Rattle.qe_form.specs.Signs.{IsProper};
ghost use Rattle.qe_form.specs.Signs as signs_of;
ghost use Rattle.qe_form.specs.Tree.{tree};
ghost use Rattle.qe_root.specs.Value as value;
ghost use Rattle.qe_root.specs.SignForm as sign_form;
ghost use Rattle.qe_halt.specs.Outcome.{IsOutcome};
ghost use Rattle.qe_subst.specs.Fault.{in_stage};
ghost use Rattle.qe_subst.specs.Substituted as spec;

use crate::below::everywhere;
use crate::stop::{AtomStop, stop_in};
use crate::{Form, OutOfMemory, Poly, RootPoint, Signs, Stage, Var};
use qe_root::{at_root, sign_form};
use std::alloc::Global;

/// The derivative of a polynomial, whose degree is less by one.
fn derivative(alloc: Global, x: Var, poly: &Poly) -> Result<Poly, AtomStop>
    ensures { IsOutcome (in_stage stage.Slope (derivative_limit x.0 poly.now))
        (λ d. d ≡ derivative x.0 poly.now) result }
{
    match poly.derivative(alloc, x) {
        Ok(derivative) => Ok(derivative),
        Err(stop) => Err(stop_in(Stage::Slope, stop)),
    }
}

/// A root at which a variable is tested, with the polynomial that it comes from, where there is
/// one.
#[derive(Drop)]
pub struct TestRoot<'a> {
    pub x: Var,
    pub root: &'a RootPoint,
    pub own: Option<&'a Poly>,
}

/// The formula stating that a polynomial's sign at the root is in a set without zero, and the one
/// stating that it is zero there.
#[derive(Drop)]
struct AtRoot {
    unequal: Form,
    zero: Form,
}

/// Either the first formula, or both the second and the one for the derivative.
fn joined(alloc: Global, at: AtRoot, rest: Form) -> Result<Form, OutOfMemory>
    ensures { IfOk result
        (λ f. tree f ≡ making.either (tree at.unequal) (making.both (tree at.zero) (tree rest))) }
{
    let rising = Form::both(alloc, at.zero, rest)?;
    Form::either(alloc, at.unequal, rising)
}

impl TestRoot<'_> {
    /// Whether the polynomial is the one that the root comes from.
    fn is_own(&self, poly: &Poly) -> bool
        ensures { result ≡ spec.is_own (option_copied self.now.own) poly.now }
    {
        match self.own {
            Some(own) => own == poly,
            None => false,
        }
    }

    /// The parts A and B of the polynomial's value at the root.
    fn parts(&self, alloc: Global, poly: &Poly) -> Result<(Poly, Poly), AtomStop>
        requires { degree_in self.now.x.0 poly.now ≤ 2 }
        ensures { let t = self.now in IsOutcome
            (in_stage stage.Root (value.value_limit poly.now t.x.0 t.root.now))
            (λ parts. (parts.0 ≡ value.plain_part_of poly.now t.x.0 t.root.now)
            × (parts.1 ≡ value.root_part_of poly.now t.x.0 t.root.now)) result }
    {
        match at_root(alloc, poly, self.x, self.root) {
            Ok(parts) => Ok(parts),
            Err(stop) => Err(stop_in(Stage::Root, stop)),
        }
    }

    /// The formula for the sign of A + B*sqrt(r).
    fn sign(&self, alloc: Global, parts: &(Poly, Poly), signs: Signs) -> Result<Form, AtomStop>
        requires { IsProper signs }
        ensures { let r = self.now.root.now.r in IsOutcome
            (in_stage stage.Sign (sign_form.sign_limit parts.now.0 parts.now.1 r signs))
            (λ f. tree f ≡ sign_form.sign_formula parts.now.0 parts.now.1 r signs) result }
    {
        match sign_form(alloc, &parts.0, &parts.1, &self.root.r, signs) {
            Ok(form) => Ok(form),
            Err(stop) => Err(stop_in(Stage::Sign, stop)),
        }
    }

    /// The formula stating that the polynomial's sign at the root is in the set. The root's own
    /// polynomial is zero there.
    pub fn at(&self, alloc: Global, poly: &Poly, signs: Signs) -> Result<Form, AtomStop>
        requires degree { degree_in self.now.x.0 poly.now ≤ 2 }
        requires proper { IsProper signs }
        ensures { let t = self.now in IsOutcome
            (spec.at_root_fault t.x.0 (option_copied t.own) t.root.now poly.now signs)
            (λ f. tree f
            ≡ spec.at_root t.x.0 (option_copied t.own) t.root.now poly.now signs) result }
    {
        if self.is_own(poly) {
            return Ok(Form::constant(signs.has_zero()));
        }
        let parts = self.parts(alloc, poly)?;
        self.sign(alloc, &parts, signs)
    }

    /// The formulas for the set without zero and for zero, from one value.
    fn at_both(&self, alloc: Global, poly: &Poly, signs: Signs) -> Result<AtRoot, AtomStop>
        requires degree { degree_in self.now.x.0 poly.now ≤ 2 }
        requires proper { IsProper (signs_of.strict signs) }
        ensures { let t = self.now in IsOutcome
            (spec.at_both_fault t.x.0 (option_copied t.own) t.root.now poly.now signs)
            (λ at. (tree at.unequal
            ≡ spec.at_root t.x.0 (option_copied t.own) t.root.now poly.now (signs_of.strict signs))
            × (tree at.zero
            ≡ spec.at_root t.x.0 (option_copied t.own) t.root.now poly.now signs_of.equal)) result }
    {
        if self.is_own(poly) {
            return Ok(AtRoot {
                unequal: Form::constant(false),
                zero: Form::constant(true),
            });
        }
        let parts = self.parts(alloc, poly)?;
        let unequal = self.sign(alloc, &parts, signs.strict())?;
        let zero = self.sign(alloc, &parts, Signs::EQUAL)?;
        Ok(AtRoot { unequal, zero })
    }

    /// The formula stating that the polynomial, which has the variable, has a sign of the set just
    /// above the root: at the root it has one other than zero, or it is zero there and its
    /// derivative has a sign of the set just above the root.
    #[cycle(near)]
    fn near(&self, alloc: Global, poly: &Poly, signs: Signs) -> Result<Form, AtomStop>
        requires canonical { IsPolynomial poly.now }
        requires degree { degree_in self.now.x.0 poly.now ≤ 2 }
        requires proper { IsProper (signs_of.strict signs) }
        ensures { let t = self.now in let n = suc (degree_in t.x.0 (derivative t.x.0 poly.now)) in
            IsOutcome
            (spec.near_fault t.x.0 (option_copied t.own) t.root.now n poly.now signs)
            (λ f. tree f
            ≡ spec.near t.x.0 (option_copied t.own) t.root.now n poly.now signs) result }
    {
        let at = self.at_both(alloc, poly, signs)?;
        let derivative = derivative(alloc, self.x, poly)?;
        let rest = self.near_derivative(alloc, derivative, signs)?;
        Ok(joined(alloc, at, rest)?)
    }

    /// The same for a derivative, in which the variable need not occur.
    #[cycle(near)]
    fn near_derivative(
        &self,
        alloc: Global,
        derivative: Poly,
        signs: Signs,
    ) -> Result<Form, AtomStop>
        requires degree { degree_in self.now.x.0 derivative ≤ 2 }
        requires proper { IsProper (signs_of.strict signs) }
        ensures { let t = self.now in let n = degree_in t.x.0 derivative in IsOutcome
            (spec.near_fault t.x.0 (option_copied t.own) t.root.now n derivative signs)
            (λ f. tree f
            ≡ spec.near t.x.0 (option_copied t.own) t.root.now n derivative signs) result }
    {
        if derivative.degree_in(self.x) == 0 {
            return Ok(Form::atom(derivative, signs));
        }
        self.near(alloc, &derivative, signs)
    }

    /// The formula stating that the polynomial, of degree one or two, has a sign of the set just
    /// above the root.
    #[tactic(auto, using(crate::proofs::ProperSigns::strict_proper))]
    pub fn above(
        &self,
        alloc: Global,
        poly: &Poly,
        degree: u32,
        signs: Signs,
    ) -> Result<Form, AtomStop>
        requires canonical { IsPolynomial poly.now }
        requires degree { degree ≡ degree_in self.now.x.0 poly.now }
        requires positive { 0 < degree }
        requires at_most { degree ≤ 2 }
        requires proper { IsProper signs }
        ensures { let t = self.now in IsOutcome
            (spec.above_root_fault t.x.0 (option_copied t.own) t.root.now poly.now signs)
            (λ f. tree f
            ≡ spec.above_root t.x.0 (option_copied t.own) t.root.now poly.now signs) result }
    {
        if signs.is_even() {
            return Ok(everywhere(alloc, self.x, poly, degree, signs)?);
        }
        self.near(alloc, poly, signs)
    }
}
