//! Towers of square roots over the rationals: elements, their signs, numbers and points.
//! Knows no polynomials. The definitions stand in specs/, in the order Fraction, Element, Sign, Number, Point; the laws in Laws.
#![tactic(auto)]

pub mod examples;
pub mod laws;
