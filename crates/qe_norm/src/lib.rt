//! The prenex form: negations move inwards, quantifiers outwards; neighbours of one kind form blocks.
//! Knows nothing of texts, nor of how quantifiers are eliminated.
#![tactic(auto)]

mod blocks;
mod group;
mod normal_form;
mod polarity;
mod size;
mod walk;

pub use blocks::{Block, Kind, NormStop, Prenex};
pub use normal_form::normal;
pub use std::alloc::AllocError as OutOfMemory;
