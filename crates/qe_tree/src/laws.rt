//! What holds of the tree of a block over every sound expansion. Each function does nothing: its
//! clause is the law.

ghost use Rattle.qe_form.specs.Formula.{Formula};
ghost use Rattle.qe_tree.specs.Expanded.{Expansion};
ghost use Rattle.qe_tree.specs.Sound.{IsSound};
ghost use Rattle.qe_tree.specs.Laws.{GrowthKeepsTruth, InnerIsSame, EliminatedIsSame};

/// A sound expansion of the nodes of a block: why a node may fail, the formulas that come up, and
/// what becomes of a node. Where there is one, an `impl` for a type without values names it, and
/// the laws hold at that type.
pub trait Grows {
    ghost failures: { Type 0 };

    ghost good: { Formula → Type 0 };

    ghost expand: { Expansion failures };

    ghost sound: { IsSound good expand };
}

/// A node is true for some values of its variables exactly where some successor is true for some
/// values of its own.
pub fn growth_keeps_truth<G: Grows>()
    ensures { GrowthKeepsTruth G.good G.expand }
{}

/// Where a block's inner result is a formula, it is the same as the root under `ex` of the block's
/// variables.
pub fn inner_is_same<G: Grows>()
    ensures { InnerIsSame G.good G.expand }
{}

/// Where eliminating all blocks gives a formula, it is the same as the prenex form.
pub fn eliminated_is_same<G: Grows>()
    ensures { EliminatedIsSame G.good G.expand }
{}
