//! The successors of a node.

ghost use Rattle.std.specs.Prelude.{◌≡◌, ◌≢◌, ◌≤◌, false, true, not, eqb, length, All, AllPairs, IfOk, Some, map};
ghost use Rattle.qe_form.specs.Measures.{degree};
ghost use Rattle.qe_form.specs.Plain.{IsPlain, IsPlainAndProper};
ghost use Rattle.qe_form.specs.Tree.{tree};
ghost use Rattle.qe_points.specs.Candidates as listed;
ghost use Rattle.qe_points.specs.Choice.{choice};
ghost use Rattle.qe_points.specs.Guarded.{HasRoot};
ghost use Rattle.qe_tree.specs.Sound.{IsFine};
ghost use Rattle.qe_node.specs.Successors.{as_vars, given_by};
ghost use Rattle.qe_node.specs.Answer.{IsExpansion, others, expansion_of};
ghost use Rattle.qe_node.specs.Growth.{IsGrowth, nodes_below};
ghost use Rattle.qe_node.specs.Truth.{KeepsTruth, TruthIsKept};

use crate::trial::{Trial, try_candidate};
use crate::{
    Form, GrowthLimit, GrowthStop, Node, NodeStop, OutOfMemory, Sequence, Var, Vars, root,
};
use qe_piece::{Made, Never, Next, Stop};
use qe_points::{Candidate, candidates, choose};
use std::alloc::Global;

/// The variable that is eliminated from a node, and the node's successors.
#[derive(Drop)]
pub struct Grown {
    pub var: Var,
    pub successors: Vec<Next<Node>>,
}

/// The variables other than this one, in their order.
fn others(alloc: Global, vars: &[Var], x: Var) -> Result<Vars, OutOfMemory>
    ensures { IfOk result (λ vs. map (λ v. v.0) vs ≡ others x.0 (map (λ v. v.0) vars.now)) }
{
    let mut left = Sequence::new(alloc);
    for var in vars {
        if *var != x {
            left.push(*var)?;
        }
    }
    Ok(left)
}

/// The successors at the candidates of a variable, with those of `vars` that occur in each.
fn try_candidates<T: Stop>(
    alloc: Global,
    vars: &[Var],
    form: &Form,
    x: Var,
    candidates: &[Candidate],
    stop: &mut T,
) -> Result<Vec<Next<Node>>, GrowthStop>
    requires distinct { AllPairs (λ x y. x ≢ y) (map (λ v. v.0) vars.now) }
    requires short { length vars.now ≤ 65536 }
    requires proper { IsPlainAndProper (tree form.now) }
    requires degree { degree x.0 (tree form.now) ≤ 2 }
    requires roots { All (HasRoot x.0) candidates.now }
    ensures answer { IsGrowth (λ v. v.items)
        (nodes_below (map (λ v. v.0) vars.now) (given_by x.0 (tree form.now) 0 candidates.now))
        (T.told stop.new) result }
    ensures stays { T.told stop.old ≡ true → T.told stop.new ≡ true }
    ensures basis { T.basis stop.new ≡ T.basis stop.old }
{
    let mut grown = Vec::new(alloc);
    for (number, candidate) in candidates.iter().enumerate() {
        if stop.stopped() {
            return Err(GrowthStop::Limit(GrowthLimit::Stopped));
        }
        match try_candidate(alloc, form, x, candidate, number as u64)? {
            Trial::Failed(fault) => return Err(GrowthStop::Limit(GrowthLimit::Failed(fault))),
            Trial::Skipped => {}
            Trial::Given(form) => {
                let last = form.is_true();
                let piece = root(alloc, vars, form)?;
                grown.push(Next {
                    point: number as u64,
                    piece,
                })?;
                if last {
                    return Ok(grown);
                }
            }
        }
    }
    Ok(grown)
}

/// The successors where a variable is eliminated.
fn grow_at<T: Stop>(
    alloc: Global,
    vars: &[Var],
    form: &Form,
    x: Var,
    stop: &mut T,
) -> Result<Vec<Next<Node>>, GrowthStop>
    requires distinct { AllPairs (λ x y. x ≢ y) (map (λ v. v.0) vars.now) }
    requires short { length vars.now ≤ 65536 }
    requires proper { IsPlainAndProper (tree form.now) }
    requires degree { degree x.0 (tree form.now) ≤ 2 }
    ensures answer { IsGrowth (λ v. v.items)
        (nodes_below (others x.0 (map (λ v. v.0) vars.now))
        (given_by x.0 (tree form.now) 0 (listed.candidates x.0 (tree form.now))))
        (T.told stop.new) result }
    ensures canonical { IfOk result (λ _. IsPlain (tree form.now) → IsFine (tree form.now)) }
    ensures stays { T.told stop.old ≡ true → T.told stop.new ≡ true }
    ensures basis { T.basis stop.new ≡ T.basis stop.old }
{
    let left = others(alloc, vars, x)?;
    let points = candidates(alloc, form, x)?;
    try_candidates(alloc, left.items(), form, x, &points, stop)
}

/// The successors of a node, with the variable that is eliminated. Of the node's variables, in
/// their order, the first of least degree is chosen, where that degree is at most two; where there
/// is none the node fails with `DegreeExcess`. The successors are those that `expand` gives.
pub fn grow<T: Stop>(alloc: Global, node: &Node, stop: &mut T) -> Result<Grown, GrowthStop>
    ensures answer { IsGrowth (λ g. g.successors.items) (expansion_of node.now)
        (T.told stop.new) result }
    ensures chosen { IfOk result (λ g. choice node.now.form (as_vars node.now.vars) ≡ Some g.var) }
    ensures truth { IfOk result (λ g. TruthIsKept node.now g.successors.items) }
    ensures stays { T.told stop.old ≡ true → T.told stop.new ≡ true }
    ensures basis { T.basis stop.new ≡ T.basis stop.old }
{
    let vars = node.vars.items();
    let Some(var) = choose(&node.form, vars) else {
        return Err(GrowthStop::Limit(GrowthLimit::Failed(NodeStop::DegreeExcess)));
    };
    let successors = grow_at(alloc, vars, &node.form, var, stop)?;
    Ok(Grown { var, successors })
}

/// The successors of a node. Of its variables, in their order, the first of least degree is chosen,
/// where that degree is at most two; where there is none the node fails with `DegreeExcess`. The
/// candidates of the variable are tried in turn. A limit in the guard makes the node fail, and so
/// does a limit or too many atoms in the formula at the candidate's point. A candidate whose guard
/// is False is skipped. The new formula is the simplified And of the guard and the formula at the
/// point; where it is False the candidate is skipped too, and else it gives a successor with the
/// candidate's number. The list ends after the first successor that is True. `Stopped` comes only
/// where the stop is told when the call ends; it is asked before each candidate. At every point of
/// numbers the node's formula is true for some values of its variables exactly where that of some
/// successor is so for values of its own.
pub fn expand<T: Stop>(alloc: Global, node: &Node, stop: &mut T) -> Made<Node>
    ensures answer { IsExpansion (expansion_of node.now) (T.told stop.new) result }
    ensures truth { KeepsTruth node.now result }
    ensures stays { T.told stop.old ≡ true → T.told stop.new ≡ true }
    ensures basis { T.basis stop.new ≡ T.basis stop.old }
{
    match grow(alloc, node, stop) {
        Ok(grown) => Made::Successors(grown.successors),
        Err(GrowthStop::Limit(GrowthLimit::Failed(fault))) => Made::Failed(fault),
        Err(GrowthStop::Limit(GrowthLimit::Stopped)) => Made::Stopped,
        Err(GrowthStop::OutOfMemory) => Made::OutOfMemory,
    }
}

/// The successors of a node, as `expand` gives them where nobody tells it to stop.
pub fn successors(alloc: Global, node: &Node) -> Made<Node>
    ensures { IsExpansion (expansion_of node.now) false result }
{
    expand(alloc, node, &mut Never)
}
