//! The tree of a text, or its first fault.

ghost use Rattle.std.specs.Prelude.{◌≡◌, ◌-◌, ◌≤◌, drop, length};
ghost use Rattle.qe_syntax.specs.Tree.{FormulaTree};
ghost use Rattle.qe_syntax.specs.Faults.{Answers, IsText, GivesTree, next_place};

use crate::cursor::Cursor;
use crate::fault::{ParseStop, Stop, TextFault};
use crate::formula::Parser;
use crate::{Formula, Located};
use std::alloc::Global;

/// The place of the token before so many last ones, or of the end.
fn place_of(tokens: &[Located], left: usize, end: u32) -> u32
    requires { left ≤ length tokens.now }
    ensures { result ≡ next_place (drop (length tokens.now - left) tokens.now) end }
{
    match &tokens[tokens.len() - left..] {
        [] => end,
        [first, ..] => first.place,
    }
}

fn parse_first(alloc: Global, tokens: &[Located], end: u32) -> Result<Formula, ParseStop>
    ensures { Answers tokens.now end result }
{
    let mut parser = Parser {
        cursor: Cursor::new(tokens),
        begun: 0,
    };
    match parser.formula(alloc, 0) {
        Ok(formula) => {
            let left = parser.cursor.len();
            if left == 0 {
                return Ok(formula);
            }
            Err(ParseStop::Fault(TextFault::Syntax, place_of(tokens, left, end)))
        }
        Err(Stop::OutOfMemory) => Err(ParseStop::OutOfMemory),
        Err(Stop::Limit(fault)) => Err(ParseStop::Fault(
            fault,
            place_of(tokens, parser.cursor.len(), end),
        )),
    }
}

/// Reads the tokens of a text as one formula. The end of the text has the offset `end`.
///
/// The method is recursive descent: a method for each nonterminal, which looks one token ahead.
///
/// # Errors
///
/// `Fault` with the first fault and the offset of its token, where the end of the text counts as a token.
/// `OutOfMemory` only where memory runs out.
pub fn parse(alloc: Global, tokens: &[Located], end: u32) -> Result<Formula, ParseStop>
    // What is read is a text of the grammar within its limits; a fault is the first one.
    ensures answers { Answers tokens.now end result }
    // Each text of the grammar within its limits is read as its tree, unless memory runs out.
    ensures only { (t : FormulaTree) → IsText tokens.now t → GivesTree t result }
{
    parse_first(alloc, tokens, end)
}
