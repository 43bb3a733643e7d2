//! Tokens, trees, the reader, the printer and the generator, each public call once, as tests over these calls alone.
//! They stand apart, so that none of those crates is proved a second time beside its tests.
//! Cases of texts stand in checks/texts.md, over the built program.
#![tactic(auto)]

#[cfg(test)]
mod generated;
#[cfg(test)]
mod texts;
#[cfg(test)]
mod tokens;
