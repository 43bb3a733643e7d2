//! Splits bytes into tokens.

ghost use Rattle.std.specs.Prelude.{true, ◌∷◌, ◌≡◌, ◌+◌, ◌-◌, ◌*◌, ◌<◌, ◌≤◌, ◌^◌, ◌++◌, IsTrue, MatchOption, min, ℕ, List, [], length, OnOk, IfOk};
ghost use Rattle.std.specs.List.{All, list_all};
ghost use Rattle.std.specs.Str.{bytes_eq};
ghost use Rattle.qe_token.specs.declared.token.Located.{Located};
ghost use Rattle.qe_token.specs.Bytes.{is_blank, is_digit, is_letter, is_name_byte, number_of};
ghost use Rattle.qe_token.specs.Tokens.{extends, makes_relation, goes_on, AreTokens, NameIsIn};
ghost use Rattle.qe_token.specs.Scanning.{IsRun, word_token, sign_token, token_of, finished, scan};

use crate::{Located, Name, OutOfMemory, Relation, Token};
use std::alloc::Global;

/// Where the value of a number stops.
const VALUE_LIMIT: u128 = 1 << 127;

fn is_blank(byte: u8) -> bool
    ensures { result ≡ is_blank byte }
{
    byte == b' ' || byte == b'\t' || byte == b'\n' || byte == b'\r'
}

fn is_digit(byte: u8) -> bool
    ensures { result ≡ is_digit byte }
{
    byte >= b'0' && byte <= b'9'
}

fn is_letter(byte: u8) -> bool
    ensures { result ≡ is_letter byte }
{
    (byte >= b'A' && byte <= b'Z') || (byte >= b'a' && byte <= b'z')
}

fn is_name_byte(byte: u8) -> bool
    ensures { result ≡ is_name_byte byte }
{
    is_letter(byte) || is_digit(byte) || byte == b'_'
}

/// Whether a word or a number that begins with the one byte goes on with the other.
fn extends(first: u8, byte: u8) -> bool
    ensures { result ≡ extends first byte }
{
    (is_letter(first) && is_name_byte(byte)) || (is_digit(first) && is_digit(byte))
}

/// Whether the two bytes are one relation.
fn makes_relation(first: u8, byte: u8) -> bool
    ensures { result ≡ makes_relation first byte }
{
    (first == b'<' && (byte == b'=' || byte == b'>')) || (first == b'>' && byte == b'=')
}

/// Whether the byte makes the token longer.
fn goes_on(word: &[u8], byte: u8) -> bool
    ensures { result ≡ goes_on word.now byte }
{
    match word {
        [] => false,
        [only] => makes_relation(*only, byte) || extends(*only, byte),
        [first, ..] => extends(*first, byte),
    }
}

/// Ten times the value and the digit, or the limit where that is more.
fn grown(value: u128, digit: u8) -> u128
    requires value { value ≤ 2 ^ 127 }
    requires digit { is_digit digit ≡ true }
    ensures { result ≡ min (10 * value + (digit - 48)) (2 ^ 127) }
{
    if value > VALUE_LIMIT / 10 {
        VALUE_LIMIT
    } else {
        VALUE_LIMIT.min(10 * value + u128::from(digit - b'0'))
    }
}

/// The number of the digits, or the limit where that is more.
fn value_of(digits: &[u8]) -> u128
    requires { IsTrue (list_all is_digit digits.now) }
    ensures { result ≡ min (number_of digits.now) (2 ^ 127) }
{
    let mut value: u128 = 0;
    for digit in digits {
        value = grown(value, *digit);
    }
    value
}

/// Whether the bytes are the text.
fn is_text(bytes: &[u8], text: &str) -> bool
    ensures { result ≡ bytes_eq bytes.now text.now }
{
    bytes == text.as_bytes()
}

/// The token of a word: of a reserved one its own, else a name.
fn word_token(place: u32, word: &[u8]) -> Token
    requires { place + length word.now < 2 ^ 32 }
    ensures { result ≡ word_token place word.now }
{
    if is_text(word, "true") {
        Token::True
    } else if is_text(word, "false") {
        Token::False
    } else if is_text(word, "not") {
        Token::Not
    } else if is_text(word, "and") {
        Token::And
    } else if is_text(word, "or") {
        Token::Or
    } else if is_text(word, "implies") {
        Token::Implies
    } else if is_text(word, "iff") {
        Token::Iff
    } else if is_text(word, "ex") {
        Token::Ex
    } else if is_text(word, "all") {
        Token::All
    } else if is_text(word, "sqrt") || is_text(word, "eps") || is_text(word, "inf") {
        Token::Other
    } else {
        Token::Name(Name {
            start: place,
            end: place + word.len() as u32,
        })
    }
}

/// The token of bytes that are no word and no number.
fn sign_token(place: u32, sign: &[u8]) -> Token
    ensures { result ≡ sign_token place sign.now }
{
    match sign {
        b"[" => Token::OpenBracket,
        b"]" => Token::CloseBracket,
        b"(" => Token::OpenParenthesis,
        b")" => Token::CloseParenthesis,
        b"." => Token::Dot,
        b"+" => Token::Plus(place),
        b"-" => Token::Minus(place),
        b"*" => Token::Star(place),
        b"^" => Token::Caret(place),
        b"=" => Token::Relation(place, Relation::Equal),
        b"<>" => Token::Relation(place, Relation::NotEqual),
        b"<" => Token::Relation(place, Relation::Less),
        b"<=" => Token::Relation(place, Relation::LessOrEqual),
        b">" => Token::Relation(place, Relation::Greater),
        b">=" => Token::Relation(place, Relation::GreaterOrEqual),
        _ => Token::Other,
    }
}

/// The token of the bytes, which begin at the place.
fn token_of(place: u32, word: &[u8]) -> Token
    requires bound { place + length word.now < 2 ^ 32 }
    requires run { IsRun word.now }
    ensures { result ≡ token_of place word.now }
{
    match word {
        [first, ..] if is_letter(*first) => word_token(place, word),
        [first, ..] if is_digit(*first) => Token::Number(value_of(word)),
        _ => sign_token(place, word),
    }
}

/// Appends the token of the bytes, which begin at the place; where there are none, nothing.
fn finish(tokens: &mut Vec<Located>, place: u32, word: &[u8]) -> Result<(), OutOfMemory>
    requires bound { place + length word.now < 2 ^ 32 }
    requires run { IsRun word.now }
    ensures { OnOk result (tokens.new.items ≡ tokens.old.items ++ finished place word.now) }
{
    if !word.is_empty() {
        let token = token_of(place, word);
        tokens.push(Located { token, place })?;
    }
    Ok(())
}

/// The tokens, by one pass over the bytes.
fn split(alloc: Global, bytes: &[u8]) -> Result<Vec<Located>, OutOfMemory>
    requires { length bytes.now < 2 ^ 32 }
    ensures { IfOk result (λ ts. ts.items ≡ scan [] 0 bytes.now) }
{
    let mut tokens = Vec::new(alloc);
    let mut start = 0;
    for (end, byte) in bytes.iter().enumerate() {
        let word = &bytes[start..end];
        if !goes_on(word, *byte) {
            finish(&mut tokens, start as u32, word)?;
            start = if is_blank(*byte) { end + 1 } else { end };
        }
    }
    finish(&mut tokens, start as u32, &bytes[start..])?;
    Ok(tokens)
}

/// The tokens of a text in order, each as long as possible, with their places.
/// `Err` only where memory runs out.
#[tactic(auto, using(crate::proofs::Tokenized::are_found, crate::proofs::Tokenized::names_within))]
pub fn tokens(alloc: Global, bytes: &[u8]) -> Result<Vec<Located>, OutOfMemory>
    requires { length bytes.now < 2 ^ 32 }
    ensures are { IfOk result (λ ts. AreTokens 0 bytes.now ts.items) }
    ensures only { IfOk result (λ ts. (us : List Located) → AreTokens 0 bytes.now us
        → us ≡ ts.items) }
    ensures names_within { IfOk result (λ ts. All (λ t. NameIsIn bytes.now t.token) ts.items) }
{
    split(alloc, bytes)
}
