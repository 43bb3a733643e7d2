//! Nodes of the elimination of a block of quantifiers: a formula with the variables that are to be
//! eliminated from it. Knows nothing of the tree of a block's nodes.
#![tactic(auto)]

mod expansion;
pub mod laws;
mod node;
mod piece;
mod root_node;
mod stop;
mod trial;

pub use expansion::{Grown, expand, grow, successors};
pub use node::Node;
pub use piece::Expander;
pub use qe_form::{Form, Sequence, Var};
pub use qe_piece::{Made, Maker, Never, Next, Piece, Stop};
pub use qe_poly::PolyLimit;
pub use qe_root::Stage;
pub use root_node::root;
pub use std::alloc::AllocError as OutOfMemory;
pub use stop::{GrowthLimit, GrowthStop, NodeStop};

/// Variables in order.
pub type Vars = Sequence<Var>;
