//! The parser of formulas: a method for each nonterminal.

ghost use Rattle.std.specs.Prelude.{◌≡◌, ◌+◌, ◌≤◌, nat_le, true, IfOk, IsSome, OnOk};
ghost use Rattle.qe_syntax.specs.Code.{tree_of};
ghost use Rattle.qe_syntax.specs.Grammar.{with_end, formula, scope, simple, disj, conj, unary, comparison, formula_tree, scope_tree, simple_tree, disj_tree, conj_tree, unary_tree, atom_tree, bound, linked, constant_tree};
ghost use Rattle.qe_syntax.specs.Faults.{head};
ghost use Rattle.qe_syntax.specs.Reading.{ReadsFormula, on_term, on_conj, on_disj, on_simple, Tests, Binds, fault_at_limit, next_quantifier, next_arrow, next_constant, is_or, is_and, is_not, is_bracket};
ghost use Rattle.qe_syntax.specs.declared.fault.TextFault.TheVariants.{Syntax, TooMany};

use crate::cursor::{Cursor, check_level, is_full, is_wide};
use crate::fault::{Stop, TextFault};
use crate::{Comparison, Formula, Name, OutOfMemory, Sequence, Token};
use std::alloc::Global;

/// The atoms, constants and bound names that a text may have.
const MOST: u32 = 65_536;

/// The tokens that are left, and how many atoms, constants and bound names began before.
#[derive(Drop)]
pub struct Parser<'a> {
    pub cursor: Cursor<'a>,
    pub begun: u32,
}

/// What binds names.
#[derive(Clone, Copy)]
pub enum Quantifier {
    Ex,
    All,
}

/// What may stand between two disjunctions.
#[derive(Clone, Copy)]
pub enum Arrow {
    Implies,
    Iff,
}

/// The formula that binds a name.
fn quantified(
    alloc: Global,
    quantifier: Quantifier,
    name: Name,
    body: Formula,
) -> Result<Formula, OutOfMemory>
    ensures { IfOk result (λ f. tree_of f ≡ bound quantifier name (tree_of body)) }
{
    let body = Box::new(alloc, body)?;
    match quantifier {
        Quantifier::Ex => Ok(Formula::Ex(name, body)),
        Quantifier::All => Ok(Formula::All(name, body)),
    }
}

/// The formula with an arrow between two.
fn linked(
    alloc: Global,
    arrow: Arrow,
    left: Formula,
    right: Formula,
) -> Result<Formula, OutOfMemory>
    ensures { IfOk result (λ f. tree_of f ≡ linked arrow (tree_of left) (tree_of right)) }
{
    let left = Box::new(alloc, left)?;
    let right = Box::new(alloc, right)?;
    match arrow {
        Arrow::Implies => Ok(Formula::Implies(left, right)),
        Arrow::Iff => Ok(Formula::Iff(left, right)),
    }
}

/// A constant.
fn constant_of(value: bool) -> Formula
    ensures { tree_of result ≡ constant_tree value }
{
    if value { Formula::True } else { Formula::False }
}

impl<'a> Parser<'a> {
    /// Counts an atom, a constant or a bound name that begins here.
    fn begin(&mut self) -> Result<(), Stop>
        ensures same { self.new.cursor ≡ self.old.cursor }
        ensures tests { Tests (nat_le 65536 self.old.begun) TooMany result }
        ensures ok { OnOk result (self.new.begun ≡ self.old.begun + 1) }
    {
        if self.begun >= MOST {
            return Err(Stop::Limit(TextFault::TooMany));
        }
        self.begun += 1;
        Ok(())
    }

    /// Takes the name that comes next, and opens its level.
    fn bind(&mut self, depth: u32) -> Result<(), Stop>
        requires { IsSome (head self.old.cursor) }
        ensures { let old = with_end self.old.cursor in
            let new = with_end self.new.cursor in
            Binds depth result (head self.old.cursor) old new self.old.begun self.new.begun }
    {
        check_level(depth)?;
        self.begin()?;
        self.cursor.advance();
        Ok(())
    }

    /// The quantifier that comes next, if one does.
    fn quantifier(&self) -> Option<Quantifier>
        ensures { result ≡ next_quantifier (head self.now.cursor) }
    {
        match self.cursor.peek() {
            Some(Token::Ex) => Some(Quantifier::Ex),
            Some(Token::All) => Some(Quantifier::All),
            _ => None,
        }
    }

    /// The arrow that comes next, if one does.
    fn arrow(&self) -> Option<Arrow>
        ensures { result ≡ next_arrow (head self.now.cursor) }
    {
        match self.cursor.peek() {
            Some(Token::Implies) => Some(Arrow::Implies),
            Some(Token::Iff) => Some(Arrow::Iff),
            _ => None,
        }
    }

    /// Which constant comes next, if one does.
    fn constant(&self) -> Option<bool>
        ensures { result ≡ next_constant (head self.now.cursor) }
    {
        match self.cursor.peek() {
            Some(Token::False) => Some(false),
            Some(Token::True) => Some(true),
            _ => None,
        }
    }

    fn is_or(&self) -> bool
        ensures { result ≡ is_or (head self.now.cursor) }
    {
        matches!(self.cursor.peek(), Some(Token::Or))
    }

    fn is_and(&self) -> bool
        ensures { result ≡ is_and (head self.now.cursor) }
    {
        matches!(self.cursor.peek(), Some(Token::And))
    }

    fn is_not(&self) -> bool
        ensures { result ≡ is_not (head self.now.cursor) }
    {
        matches!(self.cursor.peek(), Some(Token::Not))
    }

    fn is_bracket(&self) -> bool
        ensures { result ≡ is_bracket (head self.now.cursor) }
    {
        matches!(self.cursor.peek(), Some(Token::OpenBracket))
    }

    /// Refuses an operator of terms, behind what is no term.
    fn refuse_operator(&self) -> Result<(), Stop>
        ensures { Tests (on_term (head self.now.cursor)) Syntax result }
    {
        match self.cursor.peek() {
            Some(Token::Plus(_) | Token::Minus(_) | Token::Star(_) | Token::Caret(_)) => Err(
                Stop::Limit(TextFault::Syntax),
            ),
            _ => Ok(()),
        }
    }

    /// The fault of the token that comes next, where an atom should begin and no more may.
    fn fault_at_limit(&self, depth: u32) -> TextFault
        ensures { result ≡ fault_at_limit (head self.now.cursor) depth }
    {
        match self.cursor.peek() {
            Some(Token::Number(value)) => {
                if is_wide(value) {
                    TextFault::Wide
                } else {
                    TextFault::TooMany
                }
            }
            Some(Token::Minus(_) | Token::OpenParenthesis) => {
                if is_full(depth) {
                    TextFault::TooDeep
                } else {
                    TextFault::TooMany
                }
            }
            Some(Token::Name(_)) => TextFault::TooMany,
            _ => TextFault::Syntax,
        }
    }

    /// A formula.
    #[cycle(formula)]
    pub fn formula(&mut self, alloc: Global, depth: u32) -> Result<Formula, Stop>
        requires { depth ≤ 256 }
        ensures { ReadsFormula (formula depth) on_simple formula_tree result self.old self.new }
    {
        let Some(quantifier) = self.quantifier() else {
            return self.simple(alloc, depth);
        };
        self.cursor.advance();
        let Some(name) = self.cursor.name() else {
            return Err(Stop::Limit(TextFault::Syntax));
        };
        self.bind(depth)?;
        let body = self.scope(alloc, depth + 1, quantifier)?;
        Ok(quantified(alloc, quantifier, name, body)?)
    }

    /// What follows a bound name: further names, a dot and a formula.
    #[cycle(formula)]
    fn scope(&mut self, alloc: Global, depth: u32, quantifier: Quantifier) -> Result<Formula, Stop>
        requires { depth ≤ 256 }
        ensures { ReadsFormula (scope depth) on_simple
            (scope_tree quantifier) result self.old self.new }
    {
        let Some(name) = self.cursor.name() else {
            self.cursor.expect(Token::Dot)?;
            return self.formula(alloc, depth);
        };
        self.bind(depth)?;
        let body = self.scope(alloc, depth + 1, quantifier)?;
        Ok(quantified(alloc, quantifier, name, body)?)
    }

    /// A disjunction, or two with an arrow between them.
    #[cycle(formula)]
    fn simple(&mut self, alloc: Global, depth: u32) -> Result<Formula, Stop>
        requires { depth ≤ 256 }
        ensures { ReadsFormula (simple depth) on_simple simple_tree result self.old self.new }
    {
        let left = self.disj(alloc, depth)?;
        let Some(arrow) = self.arrow() else {
            return Ok(left);
        };
        self.cursor.advance();
        let right = self.disj(alloc, depth)?;
        if self.arrow().is_some() {
            return Err(Stop::Limit(TextFault::Syntax));
        }
        Ok(linked(alloc, arrow, left, right)?)
    }

    /// A disjunction, or a conjunction alone.
    #[cycle(formula)]
    fn disj(&mut self, alloc: Global, depth: u32) -> Result<Formula, Stop>
        requires { depth ≤ 256 }
        ensures { ReadsFormula (disj depth) on_disj disj_tree result self.old self.new }
    {
        let first = self.conj(alloc, depth)?;
        if !self.is_or() {
            return Ok(first);
        }
        let mut parts = Sequence::new(alloc);
        parts.push(first)?;
        'ors: while self.is_or() {
            self.cursor.advance();
            parts.push(self.conj(alloc, depth)?)?;
        }
        Ok(Formula::Or(parts))
    }

    /// A conjunction, or a unary alone.
    #[cycle(formula)]
    fn conj(&mut self, alloc: Global, depth: u32) -> Result<Formula, Stop>
        requires { depth ≤ 256 }
        ensures { ReadsFormula (conj depth) on_conj conj_tree result self.old self.new }
    {
        let first = self.unary(alloc, depth)?;
        if !self.is_and() {
            return Ok(first);
        }
        let mut parts = Sequence::new(alloc);
        parts.push(first)?;
        'ands: while self.is_and() {
            self.cursor.advance();
            parts.push(self.unary(alloc, depth)?)?;
        }
        Ok(Formula::And(parts))
    }

    /// A negation, a constant, a formula in brackets, or an atom.
    #[cycle(formula)]
    fn unary(&mut self, alloc: Global, depth: u32) -> Result<Formula, Stop>
        requires { depth ≤ 256 }
        ensures { ReadsFormula (unary depth) on_term unary_tree result self.old self.new }
    {
        if self.is_not() {
            check_level(depth)?;
            self.cursor.advance();
            let inner = self.unary(alloc, depth + 1)?;
            return Ok(Formula::Not(Box::new(alloc, inner)?));
        }
        if self.is_bracket() {
            return self.bracket(alloc, depth);
        }
        let Some(value) = self.constant() else {
            return self.atom(alloc, depth);
        };
        self.begin()?;
        self.cursor.advance();
        self.refuse_operator()?;
        Ok(constant_of(value))
    }

    /// A formula in brackets.
    #[cycle(formula)]
    fn bracket(&mut self, alloc: Global, depth: u32) -> Result<Formula, Stop>
        requires fits { depth ≤ 256 }
        requires opens { is_bracket (head self.old.cursor) ≡ true }
        ensures { ReadsFormula (unary depth) on_term unary_tree result self.old self.new }
    {
        check_level(depth)?;
        self.cursor.advance();
        let inner = self.formula(alloc, depth + 1)?;
        self.cursor.expect(Token::CloseBracket)?;
        self.refuse_operator()?;
        Ok(inner)
    }

    /// Two terms and a relation between them.
    fn atom(&mut self, alloc: Global, depth: u32) -> Result<Formula, Stop>
        requires { depth ≤ 256 }
        ensures { ReadsFormula (comparison depth) on_term atom_tree result self.old self.new }
    {
        if self.begun >= MOST {
            return Err(Stop::Limit(self.fault_at_limit(depth)));
        }
        self.begun += 1;
        let left = self.cursor.term(alloc, depth)?;
        let (place, relation) = self.cursor.relation()?;
        let right = self.cursor.term(alloc, depth)?;
        Ok(Formula::Atom(Comparison {
            left,
            place,
            relation,
            right,
        }))
    }
}
