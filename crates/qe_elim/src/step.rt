//! Steps of a path, and nodes at the ends of paths.

use qe_form::Var;
use qe_node::NodeStop;

/// A step of a path from the root of a tree: the variable that is eliminated, and the number of its
/// test point, counted from 0.
#[derive(Clone, Copy, Debug, PartialEq, Eq)]
pub struct Step {
    pub var: Var,
    pub point: u64,
}

/// A node that fails: the steps to it, and why.
#[derive(Drop)]
pub struct Fault {
    pub path: Vec<Step>,
    pub stop: NodeStop,
}
