//! Elimination of one block.

ghost use Rattle.std.specs.Prelude.{◌≡◌, ◌≢◌, ◌≤◌, ◌<◌, ◌^◌, length, AllPairs, IfOk};
ghost use Rattle.qe_form.specs.Tree.{tree};
ghost use Rattle.qe_form.specs.Measures.{count};
ghost use Rattle.qe_form.specs.Plain.{IsPlain};
ghost use Rattle.qe_simp.specs.Shape.{IsSimplified};
ghost use Rattle.qe_norm.specs.Blocks.{kind_of};
ghost use Rattle.qe_tree.specs.Block as spec;
ghost use Rattle.qe_tree.specs.Sound.{IsReady};
ghost use Rattle.qe_elim.specs.Answer.{IsBlock};

use crate::OutOfMemory;
use crate::eliminate::ElimStop;
use crate::search::{Ended, SearchStop, TooManyNodes, search};
use qe_form::{Form, Sequence};
use qe_norm::{Block, Kind};
use qe_simp::simplify;
use std::alloc::Global;

/// The formula at the root of the block's tree: the simplified matrix, which is negated first for
/// `all`.
fn root_of(alloc: Global, kind: Kind, matrix: Form) -> Result<Form, OutOfMemory>
    requires plain { IsPlain (tree matrix) }
    requires small { count (tree matrix) < 2 ^ 50 }
    ensures exact { IfOk result (λ f. tree f ≡ spec.root (kind_of kind) (tree matrix)) }
    ensures simplified { IfOk result (λ f. IsSimplified (tree f)) }
    ensures ready { IfOk result (λ _. IsReady IsSimplified
        (spec.matrix_for (kind_of kind) (tree matrix))) }
    ensures small { IfOk result (λ f. count (tree f) < 2 ^ 50) }
{
    match kind {
        Kind::Ex => simplify(alloc, matrix),
        Kind::All => simplify(alloc, matrix.negated(alloc)?),
    }
}

/// What the block gives where its tree gives this formula: for `all` its simplified negation.
fn closed(alloc: Global, kind: Kind, form: Form) -> Result<Form, OutOfMemory>
    ensures { IfOk result (λ f. tree f ≡ spec.result_for (kind_of kind) (tree form)) }
{
    match kind {
        Kind::Ex => Ok(form),
        Kind::All => simplify(alloc, form.negated(alloc)?),
    }
}

/// Eliminates the block with this number from over its matrix.
pub fn eliminate_block(
    alloc: Global,
    block: &Block,
    number: u32,
    matrix: Form,
    limit: u32,
) -> Result<Form, ElimStop>
    requires distinct { AllPairs (λ x y. x ≢ y) block.now.vars }
    requires short { length block.now.vars ≤ 65536 }
    requires plain { IsPlain (tree matrix) }
    requires small { count (tree matrix) < 2 ^ 50 }
    requires some { 1 ≤ limit }
    ensures answer { IsBlock limit number block.now (tree matrix) result }
    ensures ready { IfOk result (λ _. IsReady IsSimplified
        (spec.matrix_for block.now.kind (tree matrix))) }
{
    let root = root_of(alloc, block.kind, matrix)?;
    match search(alloc, block.vars.items(), root, limit) {
        Ok(Ended::True) => Ok(closed(alloc, block.kind, Form::True)?),
        Ok(Ended::Leaves(leaves)) => {
            let joined = simplify(alloc, Form::Or(Sequence::from_vec(leaves)))?;
            Ok(closed(alloc, block.kind, joined)?)
        }
        Ok(Ended::Failed(fault)) => Err(ElimStop::Node {
            block: number,
            path: fault.path,
            stop: fault.stop,
        }),
        Err(SearchStop::Limit(TooManyNodes)) => Err(ElimStop::NodeLimit {
            block: number,
            limit,
        }),
        Err(SearchStop::OutOfMemory) => Err(ElimStop::OutOfMemory),
    }
}
