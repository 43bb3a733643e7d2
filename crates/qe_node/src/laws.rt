//! The law of the expansion of nodes. The function does nothing: its clause is the law.

ghost use Rattle.qe_simp.specs.Shape.{IsSimplified};
ghost use Rattle.qe_tree.specs.Sound.{IsSound};
ghost use Rattle.qe_node.specs.Successors.{expansion};

/// The expansion of nodes is sound. At every point a simplified formula is true for some number of
/// the chosen variable exactly where some successor's formula is true; these are simplified too,
/// and have no variable but those of the formula, without the chosen one.
pub fn expansion_is_sound()
    ensures { IsSound IsSimplified expansion }
{}
