//! The top call: from words and bytes to a status and bytes.
//! Knows no threads.
#![tactic(auto)]

mod asked;
mod fault;
mod reply;
mod status;
mod stop;
mod summary;
mod top;

pub use status::Status;
pub use top::run_alone;
