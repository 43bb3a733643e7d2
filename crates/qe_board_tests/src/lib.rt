//! The container of nodes on small graphs, as tests over the public calls of its crate.
//! They stand apart, so that the container is not proved a second time beside its tests.
#![tactic(auto)]

#[cfg(test)]
mod calls;
#[cfg(test)]
mod runs;
mod spot;
mod workers;
