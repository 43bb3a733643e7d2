//! The tree of a block of quantifiers over any sound expansion of its nodes, and the block theorem.
//! Knows nothing of test points. All is defined in specs/.
#![tactic(auto)]

pub mod laws;
