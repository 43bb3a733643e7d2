//! What becomes of one candidate.

ghost use Rattle.std.specs.Prelude.{◌≡◌, ◌≢◌, ◌≤◌, IfOk, option_copied};
ghost use Rattle.qe_form.specs.Measures.{degree};
ghost use Rattle.qe_form.specs.Plain.{IsPlainAndProper};
ghost use Rattle.qe_form.specs.Tree.{tree};
ghost use Rattle.qe_points.specs.Guarded.{HasRoot, own};
ghost use Rattle.qe_node.specs.Successors.{fails, node_stop_at, put_in, tried, unless_false};
ghost use Rattle.qe_node.specs.Trial.{trial_of, GivesFit, HasFitGuard, MayStand};

use crate::{Form, NodeStop, OutOfMemory, Var};
use qe_points::{Candidate, GuardedPoint, Poly, SubstStop, guarded};
use qe_simp::simplify;
use qe_subst::substitute;
use std::alloc::Global;

/// What becomes of a candidate: the node fails, or there is no successor, or one with this formula.
#[derive(Drop)]
pub enum Trial {
    Failed(NodeStop),
    Skipped,
    Given(Form),
}

/// The stop of a guard or a substitution as that of the node, at the candidate with this number;
/// `Err` where memory ran out.
fn stopped(stop: SubstStop, point: u64) -> Result<Trial, OutOfMemory>
    ensures memory { IfOk result (λ _. stop ≢ SubstStop.OutOfMemory) }
    ensures stop { IfOk result (λ t. trial_of t ≡ fails (node_stop_at point stop)) }
    ensures fit { IfOk result GivesFit }
{
    match stop {
        SubstStop::At { atom, stage, limit } => Ok(Trial::Failed(NodeStop::Limit {
            point,
            atom,
            stage,
            limit,
        })),
        SubstStop::TooLarge => Ok(Trial::Failed(NodeStop::TooLarge { point })),
        SubstStop::OutOfMemory => Err(OutOfMemory),
    }
}

/// The polynomial that the candidate's root comes from.
fn own(candidate: &Candidate) -> Option<&Poly>
    ensures { option_copied result ≡ own candidate.now }
{
    match candidate {
        Candidate::Root { poly, .. } => Some(poly),
        Candidate::MinusInf => None,
    }
}

/// No successor where the formula is False, and else that with the formula.
fn unless_false(form: Form) -> Trial
    requires { MayStand (tree form) }
    ensures exact { trial_of result ≡ unless_false (tree form) }
    ensures fit { GivesFit result }
{
    if form.is_false() {
        Trial::Skipped
    } else {
        Trial::Given(form)
    }
}

/// What becomes of the candidate with this number, from its guard and its point on.
fn put_in(
    alloc: Global,
    form: &Form,
    x: Var,
    found: GuardedPoint,
    own: Option<&Poly>,
    number: u64,
) -> Result<Trial, OutOfMemory>
    requires degree { degree x.0 (tree form.now) ≤ 2 }
    requires proper { IsPlainAndProper (tree form.now) }
    requires guard { HasFitGuard found }
    ensures exact { IfOk result (λ t. trial_of t
        ≡ put_in x.0 (tree form.now) number (tree found.guard) found.point
        (option_copied own.entry)) }
    ensures fit { IfOk result GivesFit }
{
    let GuardedPoint { guard, point } = found;
    match substitute(alloc, form, x, &point, own) {
        Ok(rest) => {
            let joined = simplify(alloc, Form::both(alloc, guard, rest)?)?;
            Ok(unless_false(joined))
        }
        Err(stop) => stopped(stop, number),
    }
}

/// What becomes of the candidate with this number.
pub fn try_candidate(
    alloc: Global,
    form: &Form,
    x: Var,
    candidate: &Candidate,
    number: u64,
) -> Result<Trial, OutOfMemory>
    requires degree { degree x.0 (tree form.now) ≤ 2 }
    requires proper { IsPlainAndProper (tree form.now) }
    requires root { HasRoot x.0 candidate.now }
    ensures exact { IfOk result (λ t. trial_of t ≡ tried x.0 (tree form.now) number candidate.now) }
    ensures fit { IfOk result GivesFit }
{
    match guarded(alloc, candidate, x) {
        Ok(Some(found)) => put_in(alloc, form, x, found, own(candidate), number),
        Ok(None) => Ok(Trial::Skipped),
        Err(stop) => stopped(stop, number),
    }
}
