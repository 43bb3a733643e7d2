//! The node of a formula.

ghost use Rattle.std.specs.Prelude.{◌≡◌, ◌≢◌, ◌<◌, ◌≤◌, ◌^◌, length, map, AllPairs, IfOk};
ghost use Rattle.qe_form.specs.Measures.{count};
ghost use Rattle.qe_form.specs.Plain.{IsPlainAndProper};
ghost use Rattle.qe_form.specs.Tree.{tree};
ghost use Rattle.qe_tree.specs.Variables.{remaining};

use crate::{Form, Node, OutOfMemory, Sequence, Var, Vars};
use std::alloc::Global;

/// Those of the variables that occur in a formula, in their order.
fn remaining(alloc: Global, vars: &[Var], form: &Form) -> Result<Vars, OutOfMemory>
    ensures { IfOk result (λ vs. map (λ v. v.0) vs
        ≡ remaining (map (λ v. v.0) vars.now) (tree form.now)) }
{
    let mut left = Sequence::new(alloc);
    for var in vars {
        if form.has(*var) {
            left.push(*var)?;
        }
    }
    Ok(left)
}

/// The node of a formula: with those of the variables that occur in it, in their order. The
/// variables are distinct, and at most 65,536; the formula is plain, with sets of signs that are
/// neither empty nor full, and has fewer than 2^50 atoms and constants. `Err` only where memory
/// runs out.
pub fn root(alloc: Global, vars: &[Var], form: Form) -> Result<Node, OutOfMemory>
    requires distinct { AllPairs (λ x y. x ≢ y) (map (λ v. v.0) vars.now) }
    requires short { length vars.now ≤ 65536 }
    requires proper { IsPlainAndProper (tree form) }
    requires small { count (tree form) < 2 ^ 50 }
    ensures form { IfOk result (λ n. n.form ≡ tree form) }
    ensures vars { IfOk result (λ n. n.vars ≡ remaining (map (λ v. v.0) vars.now) (tree form)) }
{
    Ok(Node {
        vars: remaining(alloc, vars, &form)?,
        form,
    })
}
