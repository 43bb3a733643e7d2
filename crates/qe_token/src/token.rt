//! Tokens.

/// How two terms are compared.
#[derive(Clone, Copy, Debug, PartialEq, Eq)]
pub enum Relation {
    Equal,
    NotEqual,
    Less,
    LessOrEqual,
    Greater,
    GreaterOrEqual,
}

/// Where the letters of a name stand in the text: from the byte at `start` up to the one before `end`.
#[derive(Clone, Copy, Debug, PartialEq, Eq)]
pub struct Name {
    pub start: u32,
    pub end: u32,
}

/// A token. An operator carries the offset of its first byte, since the fault of a value names the operator.
#[derive(Clone, Copy, Debug, PartialEq, Eq)]
pub enum Token {
    OpenBracket,
    CloseBracket,
    OpenParenthesis,
    CloseParenthesis,
    Dot,
    Plus(u32),
    Minus(u32),
    Star(u32),
    Caret(u32),
    Relation(u32, Relation),
    True,
    False,
    Not,
    And,
    Or,
    Implies,
    Iff,
    Ex,
    All,
    /// A run of digits: its number, or 2^127 where that is more.
    Number(u128),
    Name(Name),
    /// A byte that begins no token, or a reserved word that no formula has.
    Other,
}

/// A token, and the offset of its first byte in the text.
#[derive(Clone, Copy, Debug, PartialEq, Eq)]
pub struct Located {
    pub token: Token,
    pub place: u32,
}
