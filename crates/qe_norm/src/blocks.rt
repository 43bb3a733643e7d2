//! Blocks of quantifiers, and a formula as blocks with a matrix.

use qe_form::{Form, Names, Sequence, Var};
use std::alloc::AllocError;
use std::marker::Model;

/// Which quantifier.
#[derive(Clone, Copy, Debug, PartialEq, Eq)]
pub enum Kind {
    Ex,
    All,
}

/// Quantifiers of one kind, the outermost first.
#[derive(Drop)]
pub struct Block {
    pub kind: Kind,
    pub vars: Sequence<Var>,
}

impl Model for Block {
    ghost use Rattle.qe_form.specs.Blocks as blocks;
    ghost use Rattle.qe_norm.specs.Blocks.{block_of};

    ghost Value = { blocks.Block };

    ghost view = { λ b. block_of b.kind b.vars };
}

/// A formula as blocks of quantifiers, the outermost first, over a matrix of constants, atoms, And
/// and Or.
#[derive(Drop)]
pub struct Prenex {
    pub blocks: Vec<Block>,
    pub matrix: Form,
    pub names: Names,
}

/// Why there is no prenex form.
#[derive(Clone, Copy, Debug, PartialEq, Eq)]
pub enum NormStop {
    /// It would have more than 65,536 atoms, constants and quantifiers. The number is 65,537.
    TooLarge(u32),
    OutOfMemory,
}

impl From<AllocError> for NormStop {
    ghost use Rattle.std.specs.Prelude.{◌≡◌};
    ghost use Rattle.qe_norm.specs.declared.blocks.NormStop.{NormStop};

    ghost from_gives = { λ _ e. e ≡ NormStop.OutOfMemory };

    fn from(_error: AllocError) -> NormStop {
        NormStop::OutOfMemory
    }
}
