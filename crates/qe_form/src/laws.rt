//! The laws of values, of truth and of the order. Each function does nothing: its clause is the law.

ghost use Rattle.qe_form.specs.Laws.{NeverBoth, Decided, Classical, SameIsPreorder, SameIsKept, SameIsLiteral, PreservesIsSame, PreservesIsPreorder, PreservesIsKept, CoresAreDecided, ValueOfSum, ValueOfNegative, ValueOfProduct, ValueOfMultiple, ValueOfRenamed, EqualPoints, OccurringIsFree, OrderIsTotal};
ghost use Rattle.qe_form.specs.HoldsLaws.{HoldsIsStable, HoldsIsSound, HoldsIsTruth, HoldsClassically, HoldsAtEqualPoints, HoldsReadsFree, SettlesLaws};

/// No formula is both true and false at a point.
pub fn never_both()
    ensures { NeverBoth }
{}

/// A formula without quantifiers is true or false at every point.
pub fn decided()
    ensures { Decided }
{}

/// Where excluded middle holds of truth at a point, each formula is true or false at each point.
pub fn classical()
    ensures { Classical }
{}

/// `Same` is reflexive and transitive, and symmetric where both have the same free variables.
pub fn same_is_preorder()
    ensures { SameIsPreorder }
{}

/// `Same` is kept by every connective and quantifier.
pub fn same_is_kept()
    ensures { SameIsKept }
{}

/// Where the second formula has no quantifier, both are true or both are false.
pub fn same_is_literal()
    ensures { SameIsLiteral }
{}

/// Where it is decided whether a formula is true, what preserves it is the same as it.
pub fn preserves_is_same()
    ensures { PreservesIsSame }
{}

/// `Preserves` is reflexive and transitive, and follows from `Same`.
pub fn preserves_is_preorder()
    ensures { PreservesIsPreorder }
{}

/// `Preserves` is kept by negation and by the quantifiers.
pub fn preserves_is_kept()
    ensures { PreservesIsKept }
{}

/// A formula whose quantifiers stand outside has a decided core; so has every formula where excluded middle holds of truth.
pub fn cores_are_decided()
    ensures { CoresAreDecided }
{}

/// The value of a sum is the sum of the values, at every point.
pub fn value_of_sum()
    ensures { ValueOfSum }
{}

/// The value of a negative is the negative of the value, at every point.
pub fn value_of_negative()
    ensures { ValueOfNegative }
{}

/// The value of a product is the product of the values, at every point.
pub fn value_of_product()
    ensures { ValueOfProduct }
{}

/// The value of a polynomial times a whole number is that number times the value, at every point.
pub fn value_of_multiple()
    ensures { ValueOfMultiple }
{}

/// The value of a polynomial with a variable in the place of another is that where the other has the variable's number.
pub fn value_of_renamed()
    ensures { ValueOfRenamed }
{}

/// A formula is true at both, or false at both, of two points that give equal numbers to the same variables.
pub fn equal_points()
    ensures { EqualPoints }
{}

/// In a formula without quantifiers the variables that occur are those that are free.
pub fn occurring_is_free()
    ensures { OccurringIsFree }
{}

/// The order of formulas is total, and ties exactly where they are equal.
pub fn order_is_total()
    ensures { OrderIsTotal }
{}

/// What does not fail holds.
pub fn holds_is_stable()
    ensures { HoldsIsStable }
{}

/// A formula holds where it is true, and does not where it is false.
pub fn holds_is_sound()
    ensures { HoldsIsSound }
{}

/// Where a formula is true or false, it holds where it is true, and does not where it is false.
pub fn holds_is_truth()
    ensures { HoldsIsTruth }
{}

/// A formula holds at both or at none of two points that give equal numbers to the same variables.
pub fn holds_at_equal_points()
    ensures { HoldsAtEqualPoints }
{}

/// Whether a formula holds depends on what its free variables count as.
pub fn holds_reads_free()
    ensures { HoldsReadsFree }
{}

/// What is the same as a formula that holds where another does, and has no quantifier, settles that other one. What settles a formula
/// preserves it, and is the same as it where it is decided.
pub fn settles_laws()
    ensures { SettlesLaws }
{}

/// Where excluded middle holds of truth at a point, to hold is to be true, and to fail is to be false.
pub fn holds_classically()
    ensures { HoldsClassically }
{}
