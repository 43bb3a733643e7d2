//! The laws of the simplified form. Each function does nothing: its clause is the law.

ghost use Rattle.qe_simp.specs.Laws.{SimplifiedKeeps, Idempotent, AlikeIsEqual, SamePartsIsEqual, PlainIsSimplified};

/// Where the polynomials are canonical, as those of the code are, the simplified form is true and
/// false at the same points as the formula, has no further free variable, and has at most as many
/// atoms and constants, or one.
pub fn simplified_keeps()
    ensures { SimplifiedKeeps }
{}

/// Where the polynomials are canonical, as those of the code are, simplifying twice is simplifying
/// once.
pub fn idempotent()
    ensures { Idempotent }
{}

/// Formulas that are the same up to the order, the nesting and repeats of parts have one simplified
/// form.
pub fn alike_is_equal()
    ensures { AlikeIsEqual }
{}

/// An And of the same formulas, in whatever order and how often, has one simplified form, and so
/// has an Or.
pub fn same_parts_is_equal()
    ensures { SamePartsIsEqual }
{}

/// The simplified form of a plain formula with canonical polynomials is plain, with simple atoms,
/// and stays as it is.
pub fn plain_is_simplified()
    ensures { PlainIsSimplified }
{}
