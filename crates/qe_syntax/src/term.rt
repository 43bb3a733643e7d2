//! The parser of terms: a method for each nonterminal.

ghost use Rattle.std.specs.Prelude.{◌≡◌, ◌≤◌, false, IfOk, map};
ghost use Rattle.qe_syntax.specs.Code.{term_of, addend_of, factor_of, addends_of, factors_of};
ghost use Rattle.qe_syntax.specs.Grammar.{term, product, signed, power, primary, term_tree, product_tree, signed_tree, power_tree, primary_tree, sum_of, product_of};
ghost use Rattle.qe_syntax.specs.Reading.{ReadsTerm, on_term, on_product, on_power, on_primary};

use crate::cursor::{Cursor, check_level, check_number, most_exponent};
use crate::fault::{Stop, TextFault};
use crate::{Addend, Factor, OutOfMemory, Sequence, Term, Token};
use std::alloc::Global;

/// A sum of one summand or more.
fn sum(alloc: Global, first: Term, addends: Sequence<Addend>) -> Result<Term, OutOfMemory>
    ensures { let later = addends_of (map addend_of addends) in
        IfOk result (λ t. term_of t ≡ sum_of (term_of first) later) }
{
    if addends.items().is_empty() {
        return Ok(first);
    }
    Ok(Term::Sum(Box::new(alloc, first)?, addends))
}

/// A product of one factor or more.
fn product(alloc: Global, first: Term, factors: Sequence<Factor>) -> Result<Term, OutOfMemory>
    ensures { let later = factors_of (map factor_of factors) in
        IfOk result (λ t. term_of t ≡ product_of (term_of first) later) }
{
    if factors.items().is_empty() {
        return Ok(first);
    }
    Ok(Term::Product(Box::new(alloc, first)?, factors))
}

impl<'a> Cursor<'a> {
    /// A sum, or a product alone.
    #[cycle(term)]
    pub fn term(&mut self, alloc: Global, depth: u32) -> Result<Term, Stop>
        requires { depth ≤ 256 }
        ensures { ReadsTerm (term depth false) on_term term_tree result self.old self.new }
    {
        let first = self.product(alloc, depth)?;
        let mut addends = Sequence::new(alloc);
        'sums: while let Some((place, minus)) = self.sum_sign() {
            self.advance();
            let term = self.product(alloc, depth)?;
            addends.push(Addend { place, minus, term })?;
        }
        Ok(sum(alloc, first, addends)?)
    }

    /// A product, or a signed alone.
    #[cycle(term)]
    fn product(&mut self, alloc: Global, depth: u32) -> Result<Term, Stop>
        requires { depth ≤ 256 }
        ensures { ReadsTerm (product depth false) on_product product_tree result self.old self.new }
    {
        let first = self.signed(alloc, depth)?;
        let mut factors = Sequence::new(alloc);
        'times: while let Some(place) = self.star() {
            self.advance();
            let term = self.signed(alloc, depth)?;
            factors.push(Factor { place, term })?;
        }
        Ok(product(alloc, first, factors)?)
    }

    /// A power behind any number of signs.
    #[cycle(term)]
    fn signed(&mut self, alloc: Global, depth: u32) -> Result<Term, Stop>
        requires { depth ≤ 256 }
        ensures { ReadsTerm (signed depth false) on_power signed_tree result self.old self.new }
    {
        if !self.is_minus() {
            return self.power(alloc, depth);
        }
        check_level(depth)?;
        self.advance();
        let inner = self.signed(alloc, depth + 1)?;
        Ok(Term::Negative(Box::new(alloc, inner)?))
    }

    /// A primary, with an exponent or without.
    #[cycle(term)]
    fn power(&mut self, alloc: Global, depth: u32) -> Result<Term, Stop>
        requires { depth ≤ 256 }
        ensures { ReadsTerm (power depth false) on_power power_tree result self.old self.new }
    {
        let named = self.name().is_some();
        let base = self.primary(alloc, depth)?;
        let Some(place) = self.caret() else {
            return Ok(base);
        };
        self.advance();
        let exponent = self.exponent(most_exponent(named))?;
        if self.caret().is_some() {
            return Err(Stop::Limit(TextFault::Syntax));
        }
        Ok(Term::Power(Box::new(alloc, base)?, place, exponent))
    }

    /// A number, a name, or a term in parentheses.
    #[cycle(term)]
    fn primary(&mut self, alloc: Global, depth: u32) -> Result<Term, Stop>
        requires { depth ≤ 256 }
        ensures { ReadsTerm (primary depth false) on_primary primary_tree result self.old self.new }
    {
        if let Some(value) = self.number() {
            check_number(value)?;
            self.advance();
            return Ok(Term::Number(value));
        }
        if let Some(name) = self.name() {
            self.advance();
            return Ok(Term::Name(name));
        }
        if !self.is_parenthesis() {
            return Err(Stop::Limit(TextFault::Syntax));
        }
        check_level(depth)?;
        self.advance();
        let inner = self.term(alloc, depth + 1)?;
        self.expect(Token::CloseParenthesis)?;
        Ok(inner)
    }
}
