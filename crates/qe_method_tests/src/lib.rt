//! Worked cases of the method's steps, as tests over the public calls of the crates from polynomials to nodes.
//! They stand apart, so that none of those crates is proved a second time beside its tests.
#![tactic(auto)]

#[cfg(test)]
mod built;
#[cfg(test)]
mod formulas;
#[cfg(test)]
mod nodes;
#[cfg(test)]
mod points;
#[cfg(test)]
mod polynomials;
#[cfg(test)]
mod prenex;
#[cfg(test)]
mod roots;
#[cfg(test)]
mod spelled;
#[cfg(test)]
mod substitution;
