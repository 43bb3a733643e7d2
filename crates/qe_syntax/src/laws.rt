//! The laws of texts. Each function does nothing: its clause is the law.

ghost use Rattle.qe_syntax.specs.Laws.{OneTree, TextHasNoFault, OneFault, NumbersFit};

/// The tokens of a text of the grammar stand for one tree.
pub fn one_tree()
    ensures { OneTree }
{}

/// A text of the grammar within its limits has no first fault.
pub fn text_has_no_fault()
    ensures { TextHasNoFault }
{}

/// A text has one first fault at most: one token, and one of the faults.
pub fn one_fault()
    ensures { OneFault }
{}

/// Each number of a text of the grammar within its limits is at most `2^127 - 1`.
pub fn numbers_fit()
    ensures { NumbersFit }
{}
