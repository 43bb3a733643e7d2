//! Formulas over linear polynomials with small coefficients: their elimination meets no limit of
//! polynomials, so no node fails; the generated inputs are such. Knows nothing of how a tree is searched.
#![tactic(auto)]

pub mod laws;
