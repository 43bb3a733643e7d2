//! The tokens of a text that are left.

ghost use Rattle.std.specs.Prelude.{◌≡◌, ◌∷◌, ◌<◌, ◌≤◌, nat_le, nat_lt, length, IsSome};
ghost use Rattle.qe_syntax.specs.Grammar.{with_end};
ghost use Rattle.qe_syntax.specs.Faults.{head, most_exponent};
ghost use Rattle.qe_syntax.specs.Reading.{Takes, TakesExponent, TakesRelation, Tests, TestsExponent, next_number, next_name, is_parenthesis, is_minus, next_caret, next_star, next_sign};
ghost use Rattle.qe_syntax.specs.declared.fault.TextFault.TheVariants.{Wide, TooDeep};

use crate::fault::{Stop, TextFault};
use crate::{Located, Name, Relation, Token};
use std::marker::Model;

/// The levels that may be open at once.
const DEEPEST: u32 = 256;

/// The greatest number that is no exponent: `2^127 - 1`.
const GREATEST: u128 = 170_141_183_460_469_231_731_687_303_715_884_105_727;

/// The tokens that are left. Contracts see them as a list.
#[derive(Drop)]
pub struct Cursor<'a> {
    rest: &'a [Located],
}

impl<'a> Model for Cursor<'a> {
    ghost use Rattle.std.specs.Prelude.{List};
    ghost use Rattle.qe_token.specs.declared.token.Located.{Located};

    ghost Value = { List Located };

    ghost view = { λ cursor. cursor.rest.now };
}

/// Whether a number, not an exponent, is too great.
pub fn is_wide(value: u128) -> bool
    ensures { result ≡ nat_lt 170141183460469231731687303715884105727 value }
{
    value > GREATEST
}

/// Whether no level may be opened while so many are open.
pub fn is_full(depth: u32) -> bool
    ensures { result ≡ nat_le 256 depth }
{
    depth >= DEEPEST
}

/// Tests that a number, not an exponent, is not too great.
pub fn check_number(value: u128) -> Result<(), Stop>
    ensures { Tests (nat_lt 170141183460469231731687303715884105727 value) Wide result }
{
    if is_wide(value) {
        return Err(Stop::Limit(TextFault::Wide));
    }
    Ok(())
}

/// Tests that a level may be opened while so many are open.
pub fn check_level(depth: u32) -> Result<(), Stop>
    ensures { Tests (nat_le 256 depth) TooDeep result }
{
    if is_full(depth) {
        return Err(Stop::Limit(TextFault::TooDeep));
    }
    Ok(())
}

/// The greatest exponent of a name, or of another base.
pub fn most_exponent(named: bool) -> u16
    ensures { result ≡ most_exponent named }
{
    if named { 65_535 } else { 255 }
}

fn check_exponent(most: u16, value: u128) -> Result<u16, Stop>
    ensures { TestsExponent most value result }
{
    if value > most as u128 {
        return Err(Stop::Limit(TextFault::Exponent));
    }
    Ok(value as u16)
}

impl<'a> Cursor<'a> {
    /// All tokens are left.
    pub fn new(tokens: &'a [Located]) -> Cursor<'a>
        ensures { result ≡ tokens.now }
    {
        Cursor { rest: tokens }
    }

    /// How many tokens are left.
    pub fn len(&self) -> usize
        ensures { result ≡ length self.now }
    {
        self.rest.len()
    }

    /// The token that comes next.
    pub fn peek(&self) -> Option<Token>
        ensures { result ≡ head self.now }
    {
        match self.rest {
            [] => None,
            [first, ..] => Some(first.token),
        }
    }

    /// Takes the token that comes next.
    pub fn advance(&mut self)
        requires { IsSome (head self.old) }
        ensures rest { with_end self.old ≡ head self.old ∷ with_end self.new }
        ensures shorter { length self.new < length self.old }
    {
        self.rest = &self.rest[1..];
    }

    /// Takes the token that comes next, if it is this one.
    pub fn expect(&mut self, token: Token) -> Result<(), Stop>
        ensures { Takes token result (with_end self.old) (with_end self.new) }
    {
        let Some(next) = self.peek() else {
            return Err(Stop::Limit(TextFault::Syntax));
        };
        if next == token {
            self.advance();
            return Ok(());
        }
        Err(Stop::Limit(TextFault::Syntax))
    }

    /// Takes an exponent, if it is at most so great.
    pub fn exponent(&mut self, most: u16) -> Result<u16, Stop>
        ensures { TakesExponent most result (with_end self.old) (with_end self.new) }
    {
        match self.peek() {
            Some(Token::Number(value)) => {
                let exponent = check_exponent(most, value)?;
                self.advance();
                Ok(exponent)
            }
            _ => Err(Stop::Limit(TextFault::Syntax)),
        }
    }

    /// Takes a relation: its offset, and which it is.
    pub fn relation(&mut self) -> Result<(u32, Relation), Stop>
        ensures { TakesRelation result (with_end self.old) (with_end self.new) }
    {
        match self.peek() {
            Some(Token::Relation(place, relation)) => {
                self.advance();
                Ok((place, relation))
            }
            _ => Err(Stop::Limit(TextFault::Syntax)),
        }
    }

    /// The number that comes next, if one does.
    pub fn number(&self) -> Option<u128>
        ensures { result ≡ next_number (head self.now) }
    {
        match self.peek() {
            Some(Token::Number(value)) => Some(value),
            _ => None,
        }
    }

    /// The name that comes next, if one does.
    pub fn name(&self) -> Option<Name>
        ensures { result ≡ next_name (head self.now) }
    {
        match self.peek() {
            Some(Token::Name(name)) => Some(name),
            _ => None,
        }
    }

    /// Whether a `(` comes next.
    pub fn is_parenthesis(&self) -> bool
        ensures { result ≡ is_parenthesis (head self.now) }
    {
        matches!(self.peek(), Some(Token::OpenParenthesis))
    }

    /// Whether a `-` comes next.
    pub fn is_minus(&self) -> bool
        ensures { result ≡ is_minus (head self.now) }
    {
        matches!(self.peek(), Some(Token::Minus(_)))
    }

    /// The offset of the `^` that comes next, if one does.
    pub fn caret(&self) -> Option<u32>
        ensures { result ≡ next_caret (head self.now) }
    {
        match self.peek() {
            Some(Token::Caret(place)) => Some(place),
            _ => None,
        }
    }

    /// The offset of the `*` that comes next, if one does.
    pub fn star(&self) -> Option<u32>
        ensures { result ≡ next_star (head self.now) }
    {
        match self.peek() {
            Some(Token::Star(place)) => Some(place),
            _ => None,
        }
    }

    /// The offset of the `+` or `-` that comes next, if one does, and whether it is `-`.
    pub fn sum_sign(&self) -> Option<(u32, bool)>
        ensures { result ≡ next_sign (head self.now) }
    {
        match self.peek() {
            Some(Token::Plus(place)) => Some((place, false)),
            Some(Token::Minus(place)) => Some((place, true)),
            _ => None,
        }
    }
}
