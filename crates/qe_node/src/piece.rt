//! Nodes as pieces, and the maker of their successors.

ghost use Rattle.qe_node.specs.key.Code.{sight_key, sight_of};
ghost use Rattle.qe_node.specs.lemmas.Equal.{same_is_key};
ghost use Rattle.qe_node.specs.lemmas.Piece.{true_is_leaf, descends};
ghost use Rattle.qe_node.specs.Piece.{is_leaf_node, is_true_node, height_of, meaning_of};

use crate::{Node, NodeStop, OutOfMemory, Sequence, expand};
use qe_piece::{Made, Maker, Piece, Stop};
use std::alloc::Global;

/// The key codes the variables and the tree of the formula, and both are read back from it.
impl Piece for Node {
    type Fault = NodeStop;

    ghost key = { sight_key };

    ghost meaning = { λ k. meaning_of (sight_of k) };

    ghost leaf = { λ k. is_leaf_node (sight_of k) };

    ghost truth = { λ k. is_true_node (sight_of k) };

    ghost height = { λ k. height_of (sight_of k) };

    ghost eq_is_key = { same_is_key };

    ghost true_is_leaf = { true_is_leaf };

    ghost descends = { descends };

    fn is_leaf(&self) -> bool {
        self.vars.items().is_empty()
    }

    fn is_true(&self) -> bool {
        self.vars.items().is_empty() && self.form.is_true()
    }

    fn rank(&self) -> u64 {
        self.vars.items().len() as u64
    }

    fn copy(&self, alloc: Global) -> Result<Node, OutOfMemory> {
        Ok(Node {
            vars: Sequence::from_vec(self.vars.items().to_vec(alloc)?),
            form: self.form.copy(alloc)?,
        })
    }
}

/// Makes the successors of nodes.
#[derive(Clone, Copy, Debug)]
pub struct Expander;

impl Maker<Node> for Expander {
    fn expand<T: Stop>(&self, alloc: Global, piece: &Node, stop: &mut T) -> Made<Node> {
        expand(alloc, piece, stop)
    }
}
