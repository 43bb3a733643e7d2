//! The steps along a path of the container, whose nodes tell no variables.

ghost use Rattle.std.specs.Prelude.{◌≡◌, List, IfOk};
ghost use Rattle.qe_node.specs.Answer.{numbered_nodes};
ghost use Rattle.qe_elim.specs.Search.{steps_of};
ghost use Rattle.qe_elim.specs.Steps.{numbered, descent, descent_of, steps_along};

use crate::OutOfMemory;
use crate::step::Step;
use qe_form::Var;
use qe_node::{GrowthLimit, GrowthStop, Never, Next, Node, Piece, grow};
use std::alloc::Global;

/// A step down from a node: the variable that is eliminated, and the successor at the point.
#[derive(Drop)]
pub struct Descent {
    var: Var,
    node: Node,
}

// the first successor with this number
fn successor(list: Vec<Next<Node>>, point: u64) -> Option<Node>
    ensures { result ≡ numbered point (numbered_nodes list.items) }
{
    for next in list {
        if next.point == point {
            return Some(next.piece);
        }
    }
    None
}

// one step down from a node; none, where the node fails or has no such successor
fn descend(alloc: Global, node: &Node, point: u64) -> Result<Option<Descent>, OutOfMemory>
    ensures { IfOk result (λ d. descent_of d ≡ descent node.now point) }
{
    match grow(alloc, node, &mut Never) {
        Ok(grown) => match successor(grown.successors, point) {
            Some(below) => Ok(Some(Descent {
                var: grown.var,
                node: below,
            })),
            None => Ok(None),
        },
        Err(GrowthStop::Limit(GrowthLimit::Failed(_))) => Ok(None),
        Err(GrowthStop::Limit(GrowthLimit::Stopped) | GrowthStop::OutOfMemory) => Err(OutOfMemory),
    }
}

/// The steps along a path, which is told by the numbers of its points, as far as there are successors.
pub fn steps(alloc: Global, root: &Node, path: &[u64]) -> Result<Vec<Step>, OutOfMemory>
    ensures { IfOk result (λ list. steps_of list.items ≡ steps_along path.now root.now) }
{
    let mut node = root.copy(alloc)?;
    let mut list = Vec::new(alloc);
    for point in path {
        let Some(below) = descend(alloc, &node, *point)? else {
            return Ok(list);
        };
        list.push(Step {
            var: below.var,
            point: *point,
        })?;
        node = below.node;
    }
    Ok(list)
}
