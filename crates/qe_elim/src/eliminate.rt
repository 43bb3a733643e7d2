//! Elimination of all blocks of a prenex form.

ghost use Rattle.std.specs.Prelude.{◌≤◌, ◌<◌, ◌-◌, ◌^◌, length, nat_eq, IfOk};
ghost use Rattle.std.specs.List.{IsDistinct, All};
ghost use Rattle.qe_form.specs.Tree.{tree};
ghost use Rattle.qe_form.specs.Measures.{count};
ghost use Rattle.qe_form.specs.Plain.{IsPlain};
ghost use Rattle.qe_form.specs.Same.{Same, HasNoQuantifier};
ghost use Rattle.qe_norm.specs.Prenex.{stands_for};
ghost use Rattle.qe_form.specs.Blocks.{bound_by};
ghost use Rattle.qe_tree.specs.Block.{EachBlock};
ghost use Rattle.qe_node.specs.Successors.{expansion};
ghost use Rattle.qe_elim.specs.Answer.{KeepsLimit, IsElimination, IsNoLimit};

use crate::block::eliminate_block;
use crate::step::Step;
use qe_form::Form;
use qe_node::NodeStop;
use qe_norm::Prenex;
use qe_simp::simplify;
use std::alloc::{AllocError, Global};

/// What elimination gives: a formula without quantifiers.
#[derive(Drop)]
pub struct Outcome {
    pub form: Form,
}

/// Why nothing is given. Blocks are numbered from 1, the outermost first.
#[derive(Debug, Drop)]
pub enum ElimStop {
    /// The first node of the block that fails, depth first, by the steps to it, and why.
    Node {
        block: u32,
        path: Vec<Step>,
        stop: NodeStop,
    },
    /// The plain run over the block's tree ends by the limit: the tree has more distinct nodes.
    NodeLimit {
        block: u32,
        limit: u32,
    },
    OutOfMemory,
}

impl From<AllocError> for ElimStop {
    ghost use Rattle.std.specs.Prelude.{◌≡◌};
    ghost use Rattle.qe_elim.specs.declared.eliminate.ElimStop.{ElimStop};

    ghost from_gives = { λ _ e. e ≡ ElimStop.OutOfMemory };

    fn from(_error: AllocError) -> ElimStop {
        ElimStop::OutOfMemory
    }
}

/// Eliminates the blocks of a prenex form from the innermost.
fn eliminate_blocks(alloc: Global, prenex: &Prenex, limit: u32) -> Result<Outcome, ElimStop>
    requires distinct { IsDistinct nat_eq (bound_by prenex.now.blocks.items) }
    requires few { length prenex.now.blocks.items < 2 ^ 32 - 1 }
    requires short { All (λ b. length b.vars ≤ 65536) prenex.now.blocks.items }
    requires plain { IsPlain (tree prenex.now.matrix) }
    requires small { count (tree prenex.now.matrix) < 2 ^ 50 }
    requires some { 1 ≤ limit }
    ensures answer { IsElimination limit prenex.now.blocks.items (tree prenex.now.matrix) result }
    ensures same { IfOk result (λ o. Same (stands_for prenex.now) (tree o.form)) }
    ensures plain { IfOk result (λ o. IsPlain (tree o.form)) }
{
    let mut form = prenex.matrix.copy(alloc)?;
    let mut left = prenex.blocks.len();
    if left == 0 {
        return Ok(Outcome {
            form: simplify(alloc, form)?,
        });
    }
    while left > 0 {
        left -= 1;
        let number = left as u32 + 1;
        form = eliminate_block(alloc, &prenex.blocks[left], number, form, limit)?;
    }
    Ok(Outcome { form })
}

/// A formula without quantifiers that means the same as the prenex form. The blocks are eliminated
/// from the innermost. The distinct nodes of a block stand in a container, at most `limit` of them,
/// and are taken in the order of their coming. Where a leaf is True it decides, also over nodes that
/// fail.
///
/// `Node` comes where no leaf of the block is True and a node fails; of all such nodes the first in
/// depth is told. `NodeLimit` comes exactly where the successors of a node would be more entries than
/// the limit, and no leaf was True before they came. Either is told of the innermost block where it
/// comes. The method is that of Loos and Weispfenning 1993 and of Weispfenning 1997.
pub fn eliminate_alone(alloc: Global, prenex: &Prenex, limit: u32) -> Result<Outcome, ElimStop>
    requires distinct { IsDistinct nat_eq (bound_by prenex.now.blocks.items) }
    requires few { length prenex.now.blocks.items < 2 ^ 32 - 1 }
    requires short { All (λ b. length b.vars ≤ 65536) prenex.now.blocks.items }
    requires plain { IsPlain (tree prenex.now.matrix) }
    requires small { count (tree prenex.now.matrix) < 2 ^ 50 }
    requires some { 1 ≤ limit }
    ensures answer { IsElimination limit prenex.now.blocks.items (tree prenex.now.matrix) result }
    ensures complete { EachBlock expansion (KeepsLimit limit) 1 prenex.now.blocks.items
        (tree prenex.now.matrix) → IsNoLimit result }
    ensures same { IfOk result (λ o. Same (stands_for prenex.now) (tree o.form)) }
    ensures plain { IfOk result (λ o. IsPlain (tree o.form)) }
    ensures no_quantifier { IfOk result (λ o. HasNoQuantifier (tree o.form)) }
{
    eliminate_blocks(alloc, prenex, limit)
}
