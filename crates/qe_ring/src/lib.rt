//! Rings by their operations, and signs: what elements, numbers and polynomials share.
//! Knows no towers. All of it stands in specs/ and proofs/; nothing here runs.
#![tactic(auto)]
