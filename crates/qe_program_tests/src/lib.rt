//! Tests of the ends, the words and the top call: words and bytes in, a status and bytes out.
//! They stand apart, so that these crates are not proved a second time beside them.
#![tactic(auto)]

#[cfg(test)]
mod discs;
#[cfg(test)]
mod ends;
#[cfg(test)]
mod rows;
#[cfg(test)]
mod words;
