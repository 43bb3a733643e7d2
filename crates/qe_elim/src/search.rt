//! The search through the tree of a block: a container of its nodes, filled by one worker.

ghost use Rattle.std.specs.Prelude.{◌≡◌, ◌≢◌, ◌≤◌, ◌<◌, ◌^◌, length, map, true, Some, slice_get, IfOk, AllPairs};
ghost use Rattle.qe_form.specs.Tree.{tree};
ghost use Rattle.qe_form.specs.Measures.{count};
ghost use Rattle.qe_simp.specs.Shape.{IsSimplified};
ghost use Rattle.qe_board.specs.State.{at};
ghost use Rattle.qe_board.specs.Recorded.{has_failed};
ghost use Rattle.qe_elim.specs.Search.{IsEnd};
ghost use Rattle.qe_elim.specs.Keys.{is_limit};
ghost use Rattle.qe_elim.specs.Found.{entries_of, AreThere, form_at, IsFaultAt, HasRoot};

use crate::OutOfMemory;
use crate::step::Fault;
use crate::steps::steps;
use qe_board::{Board, Found, Place, Stopping};
use qe_form::{Form, Var};
use qe_halt::Halt;
use qe_node::{Expander, Node, root};
use std::alloc::Global;

/// How a search ends.
#[derive(Drop)]
pub enum Ended {
    /// A leaf is True.
    True,
    /// The first node that fails.
    Failed(Fault),
    /// The formulas of the leaves.
    Leaves(Vec<Form>),
}

/// One more distinct node would pass the limit.
#[derive(Clone, Copy, Debug, PartialEq, Eq)]
pub struct TooManyNodes;

/// Why a search does not end.
pub type SearchStop = Halt<TooManyNodes>;

/// Whether the container stopped by the limit.
fn is_limit(stopping: Stopping) -> bool
    ensures { result ≡ is_limit stopping }
{
    matches!(stopping, Stopping::Limit)
}

/// The formulas of leaves.
fn forms_at(alloc: Global, board: &Board<Node>, leaves: &[Place]) -> Result<Vec<Form>, OutOfMemory>
    requires { AreThere (length (entries_of board.now)) leaves.now }
    ensures { IfOk result (λ forms. map tree forms.items
        ≡ map (λ p. form_at p.entry (entries_of board.now)) leaves.now) }
{
    let mut forms = Vec::new(alloc);
    for place in leaves {
        let Some(node) = board.piece(place.entry) else {
            unreachable!()
        };
        forms.push(node.form.copy(alloc)?)?;
    }
    Ok(forms)
}

/// A node that failed, with the steps to it.
fn fault_at(alloc: Global, board: &Board<Node>, place: &Place) -> Result<Fault, OutOfMemory>
    requires root { HasRoot board.now }
    requires failed { at has_failed place.now.entry (entries_of board.now) ≡ true }
    ensures { IfOk result (IsFaultAt board.now place.now) }
{
    let Some(root) = board.piece(0) else {
        unreachable!()
    };
    let Some(stop) = board.fault(place.entry) else {
        unreachable!()
    };
    Ok(Fault {
        path: steps(alloc, root, place.path.points())?,
        stop: *stop,
    })
}

/// Searches the tree of the node of a simplified formula, with the variables that occur in it, by the plain run over a container
/// of at most `limit` nodes. A True leaf decides, also over nodes that fail.
pub fn search(alloc: Global, vars: &[Var], form: Form, limit: u32) -> Result<Ended, SearchStop>
    requires distinct { AllPairs (λ x y. x ≢ y) (map (λ v. v.0) vars.now) }
    requires short { length vars.now ≤ 65536 }
    requires simplified { IsSimplified (tree form) }
    requires small { count (tree form) < 2 ^ 50 }
    requires some { 1 ≤ limit }
    ensures { IsEnd (map (λ v. v.0) vars.now) (tree form) limit result }
{
    let node = root(alloc, vars, form)?;
    let mut board = Board::open(alloc, node, limit)?;
    board.fill_alone(alloc, &Expander)?;
    if board.true_leaf().is_some() {
        return Ok(Ended::True);
    }
    if is_limit(board.stopping()) {
        return Err(SearchStop::Limit(TooManyNodes));
    }
    let Found { leaves, failed } = board.first_leaves(alloc)?;
    match failed {
        Some(place) => Ok(Ended::Failed(fault_at(alloc, &board, &place)?)),
        None => Ok(Ended::Leaves(forms_at(alloc, &board, &leaves)?)),
    }
}
