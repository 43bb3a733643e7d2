//! The law of reading what was printed. The function does nothing: its clause is the law.

ghost use Rattle.qe_roundtrip.specs.Laws.{ReadsAgain};

/// Where bytes stand for a formula with names, its text stands for the same formula with the same names, if each free
/// name occurs in one of its polynomials and the text opens at most 256 levels.
pub fn reads_again()
    ensures { ReadsAgain }
{}
