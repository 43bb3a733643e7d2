//! What is printed reads again.
//! Knows nothing of elimination.
#![tactic(auto)]

pub mod laws;
