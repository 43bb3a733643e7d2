//! The law of runs over the nodes of a block. The function does nothing: its clause is the law.

ghost use Rattle.qe_elim.specs.Laws.{RunsTellBlocks};

/// What a run over the nodes of a block tells of the block, whoever filled the container and in whatever order: once it is done
/// and not stopped by the limit or for want of memory, its verdict is what the tree of the block gives; the limit stops it only
/// where the tree has more distinct nodes.
pub fn runs_tell_blocks()
    ensures { RunsTellBlocks }
{}
