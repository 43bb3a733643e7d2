//! The tree of a text, as it was written: chains are lists, and operators keep their places.

use crate::{Name, Relation, Sequence};

/// A term.
#[cycle(term)]
#[derive(Drop)]
pub enum Term {
    /// At most `2^127 - 1`.
    Number(u128),
    Name(Name),
    Negative(Box<Term>),
    /// The base, the offset of `^`, and the exponent: at most 65,535 of a name, and at most 255 of another base.
    Power(Box<Term>, u32, u16),
    /// The first summand, and one or more after it.
    Sum(Box<Term>, Sequence<Addend>),
    /// The first factor, and one or more after it.
    Product(Box<Term>, Sequence<Factor>),
}

/// A later summand.
#[cycle(term)]
#[derive(Drop)]
pub struct Addend {
    /// The offset of the sign before it.
    pub place: u32,
    /// Whether the sign is `-`.
    pub minus: bool,
    pub term: Term,
}

/// A later factor.
#[cycle(term)]
#[derive(Drop)]
pub struct Factor {
    /// The offset of the `*` before it.
    pub place: u32,
    pub term: Term,
}

/// Two terms and how they are compared.
#[derive(Drop)]
pub struct Comparison {
    pub left: Term,
    /// The offset of the relation.
    pub place: u32,
    pub relation: Relation,
    pub right: Term,
}

/// A formula.
#[derive(Drop)]
pub enum Formula {
    True,
    False,
    Atom(Comparison),
    /// Two or more parts.
    And(Sequence<Formula>),
    /// Two or more parts.
    Or(Sequence<Formula>),
    Not(Box<Formula>),
    Implies(Box<Formula>, Box<Formula>),
    Iff(Box<Formula>, Box<Formula>),
    Ex(Name, Box<Formula>),
    All(Name, Box<Formula>),
}
