//! Nodes and their successors on small formulas, worked out by hand.

ghost use Rattle.std.specs.Prelude.{◌≡◌, ◌≤◌, true, IfOk};
ghost use Rattle.qe_form.specs.Formula.{more, no_more};
ghost use Rattle.qe_form.specs.Measures.{count};
ghost use Rattle.qe_form.specs.Plain.{IsPlainAndProper};
ghost use Rattle.qe_form.specs.Signs.{IsProper};
ghost use Rattle.qe_form.specs.Tree.{tree, trees};

use crate::built::{AT_MOST, EQUAL, LESS, NOT_EQUAL, coef};
use qe_coef::Coef;
use qe_form::{Atom, Forms, Signs};
use qe_node::{
    Expander, Form, Made, Maker, Never, Next, Node, OutOfMemory, Piece, Sequence, Stop, Var, root,
    successors,
};
use qe_poly::{Poly, PolyStop};
use std::alloc::Global;
use std::hash::{DefaultHasher, Hash, Hasher};

/// The sum of terms, each a number times variables, and the bits of the signs that the sum may have.
type Row = (&'static [(i128, &'static [u32])], u8);

/// The formulas of successors, each an And of atoms.
type Wants = &'static [&'static [Row]];

/// A formula that a node is made of.
#[derive(Clone, Copy)]
enum Given {
    One(Row),
    Both(Row, Row),
    Either(Row, Row),
}

/// `a*x^2 + b*x + c = 0` with `a`, `b`, `c` and `x` as the variables 0 to 3.
const GENERAL: Given = Given::One((&[(1, &[0, 3, 3]), (1, &[1, 3]), (1, &[2])], EQUAL));

/// `x > a and x < b` with `a`, `b` and `x` as the variables 0 to 2.
const BETWEEN: Given = Given::Both(
    (&[(1, &[0]), (-1, &[2])], LESS),
    (&[(1, &[2]), (-1, &[1])], LESS),
);

/// `x = 0 or x = a` with `a` and `x` as the variables 0 and 2.
const ONE_OF_TWO: Given = Given::Either((&[(1, &[2])], EQUAL), (&[(1, &[2]), (-1, &[0])], EQUAL));

fn product(alloc: Global, number: i128, vars: &[u32]) -> Result<Poly, PolyStop> {
    let mut product = Poly::constant(alloc, coef(number))?;
    for var in vars {
        product = product.mul(alloc, &Poly::power(alloc, Var(*var), 1)?)?;
    }
    Ok(product)
}

fn sum(alloc: Global, terms: &[(i128, &[u32])]) -> Result<Poly, PolyStop> {
    let mut sum = Poly::constant(alloc, Coef::zero())?;
    for (number, vars) in terms {
        sum = sum.add(alloc, &product(alloc, *number, vars)?)?;
    }
    Ok(sum)
}

fn signs_of(bits: u8) -> Signs
    ensures { IsProper result }
{
    match bits {
        EQUAL => Signs::of(false, true, false),
        AT_MOST => Signs::of(true, true, false),
        NOT_EQUAL => Signs::of(true, false, true),
        _ => Signs::of(true, false, false),
    }
}

fn atom_of(poly: Poly, bits: u8) -> Form
    ensures proper { IsPlainAndProper (tree result) }
    ensures small { count (tree result) ≡ 1 }
{
    let signs = signs_of(bits);
    Form::Atom(Atom { poly, signs })
}

fn atom(alloc: Global, row: Row) -> Result<Form, PolyStop>
    ensures proper { IfOk result (λ f. IsPlainAndProper (tree f)) }
    ensures small { IfOk result (λ f. count (tree f) ≡ 1) }
{
    let (terms, bits) = row;
    Ok(atom_of(sum(alloc, terms)?, bits))
}

fn two(alloc: Global, left: Form, right: Form) -> Result<Forms, OutOfMemory>
    ensures { IfOk result (λ fs. trees fs ≡ more (tree left) (more (tree right) no_more)) }
{
    let mut parts = Sequence::new(alloc);
    parts.push(left)?;
    parts.push(right)?;
    Ok(parts)
}

fn pair_of(alloc: Global, is_and: bool, first: Row, second: Row) -> Result<Form, PolyStop>
    ensures proper { IfOk result (λ f. IsPlainAndProper (tree f)) }
    ensures small { IfOk result (λ f. count (tree f) ≡ 2) }
{
    let left = atom(alloc, first)?;
    let right = atom(alloc, second)?;
    let parts = two(alloc, left, right)?;
    if is_and {
        Ok(Form::And(parts))
    } else {
        Ok(Form::Or(parts))
    }
}

fn form_of(alloc: Global, given: Given) -> Result<Form, PolyStop>
    ensures proper { IfOk result (λ f. IsPlainAndProper (tree f)) }
    ensures small { IfOk result (λ f. count (tree f) ≤ 2) }
{
    match given {
        Given::One(row) => atom(alloc, row),
        Given::Both(left, right) => pair_of(alloc, true, left, right),
        Given::Either(left, right) => pair_of(alloc, false, left, right),
    }
}

/// The node of a formula with one variable.
fn node_of(alloc: Global, x: u32, given: Given) -> Result<Node, PolyStop> {
    let form = form_of(alloc, given)?;
    Ok(root(alloc, &[Var(x)], form)?)
}

fn atoms(alloc: Global, rows: &'static [Row]) -> Result<Forms, PolyStop> {
    let mut parts = Sequence::new(alloc);
    for row in rows {
        parts.push(atom(alloc, *row)?)?;
    }
    Ok(parts)
}

/// The And of the atoms: an atom where there is one, and True where there is none.
fn joined(alloc: Global, rows: &'static [Row]) -> Result<Form, PolyStop> {
    match rows {
        [] => Ok(Form::True),
        [row] => atom(alloc, *row),
        _ => Ok(Form::And(atoms(alloc, rows)?)),
    }
}

/// The successor at this place has this number and this formula, and no variables.
fn is_at(list: &[Next<Node>], place: usize, form: &Form) -> bool {
    match list.get(place) {
        Some(next) => next.point == place as u64
            && next.piece.form == *form
            && next.piece.is_leaf(),
        None => false,
    }
}

/// The successors have these formulas, with the numbers from 0 on, and no variables.
fn are_these(alloc: Global, list: &[Next<Node>], wants: Wants) -> Result<bool, PolyStop> {
    for (place, want) in wants.iter().enumerate() {
        if !is_at(list, place, &joined(alloc, want)?) {
            return Ok(false);
        }
    }
    Ok(list.len() == wants.len())
}

fn gives(alloc: Global, x: u32, given: Given, wants: Wants) -> Result<bool, PolyStop> {
    let node = node_of(alloc, x, given)?;
    let made = successors(alloc, &node);
    match &made {
        Made::Successors(list) => are_these(alloc, list, wants),
        _ => Ok(false),
    }
}

const OF_GENERAL: Wants = &[
    &[(&[(1, &[0])], EQUAL), (&[(1, &[1])], NOT_EQUAL)],
    &[
        (&[(4, &[0, 2]), (-1, &[1, 1])], AT_MOST),
        (&[(1, &[0])], NOT_EQUAL),
    ],
    &[
        (&[(4, &[0, 2]), (-1, &[1, 1])], AT_MOST),
        (&[(1, &[0])], NOT_EQUAL),
    ],
    &[
        (&[(1, &[0])], EQUAL),
        (&[(1, &[1])], EQUAL),
        (&[(1, &[2])], EQUAL),
    ],
];

/// `a < b`.
const OF_BETWEEN: Wants = &[&[(&[(1, &[0]), (-1, &[1])], LESS)]];

/// True ends the list.
const OF_ONE_OF_TWO: Wants = &[&[]];

// The variable, the formula and its successors.
const ROWS: &[(u32, Given, Wants)] = &[
    (3, GENERAL, OF_GENERAL),
    (2, BETWEEN, OF_BETWEEN),
    (2, ONE_OF_TWO, OF_ONE_OF_TWO),
];

#[test]
fn gives_successors(rt: HostRuntime) {
    for (x, given, wants) in ROWS {
        assert!(rt; matches!(gives(rt.alloc(), *x, *given, wants), Ok(true)));
    }
}

fn hash_of<N: Hash>(piece: &N) -> u64 {
    let mut state = DefaultHasher::new();
    piece.hash(&mut state);
    state.finish()
}

/// Whether a copy of the piece is equal to it, with the same hash and with this rank.
fn is_copied<N: Piece>(alloc: Global, piece: &N, rank: u64) -> bool {
    match piece.copy(alloc) {
        Ok(copy) => copy == *piece && hash_of(&copy) == hash_of(piece) && copy.rank() == rank,
        Err(_) => false,
    }
}

/// Whether the node has the variable, which occurs, and is copied.
fn is_inner(alloc: Global, x: u32, given: Given) -> Result<bool, PolyStop> {
    let node = node_of(alloc, x, given)?;
    let has_it = node.vars.items() == [Var(x)].as_slice();
    Ok(has_it && !node.is_leaf() && is_copied(alloc, &node, 1))
}

#[test]
fn copies_a_node(rt: HostRuntime) {
    assert!(rt; matches!(is_inner(rt.alloc(), 3, GENERAL), Ok(true)));
}

/// Whether the piece is no leaf and is expanded, through the bounds.
fn is_expanded<N: Piece, M: Maker<N>, T: Stop>(
    alloc: Global,
    maker: &M,
    piece: &N,
    stop: &mut T,
) -> bool {
    if piece.is_leaf() {
        return false;
    }
    match &maker.expand(alloc, piece, stop) {
        Made::Successors(_) => true,
        _ => false,
    }
}

fn is_node_expanded(alloc: Global) -> Result<bool, PolyStop> {
    let node = node_of(alloc, 2, ONE_OF_TWO)?;
    Ok(is_expanded(alloc, &Expander, &node, &mut Never))
}

#[test]
fn expands_through_the_bounds(rt: HostRuntime) {
    assert!(rt; matches!(is_node_expanded(rt.alloc()), Ok(true)));
}
