//! The blocks of quantifiers in order.

ghost use Rattle.std.specs.Prelude.{◌≡◌, IfOk};
ghost use Rattle.qe_norm.specs.Blocks.{kind_of, is_same_kind, alone, with_quantifier, grouped};

use crate::OutOfMemory;
use crate::blocks::{Block, Kind};
use crate::walk::Quantifier;
use qe_form::Sequence;
use std::alloc::Global;

/// Whether both are the same quantifier.
fn is_same_kind(left: Kind, right: Kind) -> bool
    ensures { result ≡ is_same_kind (kind_of left) (kind_of right) }
{
    match (left, right) {
        (Kind::Ex, Kind::Ex) | (Kind::All, Kind::All) => true,
        (Kind::Ex, Kind::All) | (Kind::All, Kind::Ex) => false,
    }
}

/// A block of one quantifier.
fn alone(alloc: Global, quantifier: Quantifier) -> Result<Block, OutOfMemory>
    ensures { IfOk result (λ b. b ≡ alone quantifier) }
{
    let mut vars = Sequence::new(alloc);
    vars.push(quantifier.var)?;
    Ok(Block {
        kind: quantifier.kind,
        vars,
    })
}

/// One more quantifier: it joins the last block, where that is of its kind, and else begins one.
fn add(alloc: Global, blocks: &mut Vec<Block>, quantifier: Quantifier) -> Result<(), OutOfMemory>
    ensures { IfOk result (λ _. blocks.new.items ≡ with_quantifier blocks.old.items quantifier) }
{
    match blocks.pop() {
        Some(mut block) => {
            if is_same_kind(block.kind, quantifier.kind) {
                block.vars.push(quantifier.var)?;
                blocks.push(block)?;
            } else {
                blocks.push(block)?;
                blocks.push(alone(alloc, quantifier)?)?;
            }
        }
        None => blocks.push(alone(alloc, quantifier)?)?,
    }
    Ok(())
}

/// The blocks of quantifiers in order: neighbours of one kind are in one block.
pub fn group(alloc: Global, quantifiers: &[Quantifier]) -> Result<Vec<Block>, OutOfMemory>
    ensures { IfOk result (λ v. v.items ≡ grouped quantifiers.now) }
{
    let mut blocks = Vec::new(alloc);
    for quantifier in quantifiers {
        add(alloc, &mut blocks, *quantifier)?;
    }
    Ok(blocks)
}
