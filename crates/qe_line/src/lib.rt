//! The line over an ordered field with square roots: polynomials of degree two at most, their signs and their roots.
//! The numbers are such a field. Knows no formulas. The definitions stand in specs/, in the order Field, Place, Quadratic, Laws.
#![tactic(auto)]

pub mod laws;
