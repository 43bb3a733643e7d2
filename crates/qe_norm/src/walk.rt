//! The walk through a formula that collects its quantifiers and builds its matrix.

ghost use Rattle.std.specs.Prelude.{◌≡◌, ◌∷◌, ◌++◌, ◌<◌, ◌^◌, ◌-◌, [], length, slice_get, unwrap_or, IfOk, OnOk};
ghost use Rattle.std.specs.String.{string_bytes};
ghost use Rattle.qe_form.specs.Formula as formula;
ghost use Rattle.qe_form.specs.Tree.{tree, trees};
ghost use Rattle.qe_norm.specs.Polarity.{signs_under};
ghost use Rattle.qe_norm.specs.Numbering.{is_copy, named_again, met_first, to_copy, renamed_by};
ghost use Rattle.qe_norm.specs.Walk.{begun, in_body, past_body, opened, opened_each};

use crate::OutOfMemory;
use crate::blocks::Kind;
use crate::polarity::Polarity;
use qe_form::{Atom, Form, Forms, Names, Poly, Sequence, Var};
use std::alloc::Global;
use std::marker::Model;

/// A quantifier with its variable.
#[derive(Clone, Copy)]
pub struct Quantifier {
    pub kind: Kind,
    pub var: Var,
}

/// A variable, and the one that stands in its place.
#[derive(Clone, Copy)]
pub struct Renaming {
    pub from: Var,
    pub to: Var,
}

/// The state of a walk: for each variable of the formula whether a quantifier for it was met, the
/// names, the quantifiers in order, and the renamings in force.
#[derive(Drop)]
pub struct Walk {
    met: Vec<bool>,
    pub names: Names,
    pub prefix: Vec<Quantifier>,
    renamings: Vec<Renaming>,
}

impl Model for Walk {
    ghost use Rattle.qe_norm.specs.Walk.{WalkState};

    ghost Value = { WalkState };

    ghost view = { λ w. record {
      walked = record { met = w.met.items; names = w.names };
      prefix = w.prefix.items;
      renamings = w.renamings.items;
    } };
}

/// A copy of the polynomial with each of the renamings.
fn renamed_by(alloc: Global, renamings: &[Renaming], poly: &Poly) -> Result<Poly, OutOfMemory>
    ensures { IfOk result (λ p. p ≡ renamed_by renamings.now poly.now) }
{
    let mut made = poly.copy(alloc)?;
    for renaming in renamings {
        if made.has(renaming.from) {
            made = made.renamed(alloc, renaming.from, renaming.to)?;
        }
    }
    Ok(made)
}

/// What the atom becomes, with each of the renamings.
fn open_atom(
    alloc: Global,
    renamings: &[Renaming],
    atom: &Atom,
    polarity: Polarity,
) -> Result<Form, OutOfMemory>
    ensures { IfOk result (λ f. tree f ≡ formula.Atom (record {
      poly = renamed_by renamings.now atom.now.poly;
      signs = signs_under polarity atom.now.signs;
    })) }
{
    Ok(Form::Atom(Atom {
        poly: renamed_by(alloc, renamings, &atom.poly)?,
        signs: polarity.signs(atom.signs),
    }))
}

/// A name of its own memory; no letters where there is no such name.
fn name_again(alloc: Global, names: &Names, var: Var) -> Result<String, OutOfMemory>
    ensures { IfOk result (λ name. string_bytes name ≡ unwrap_or (slice_get names.now var.0) []) }
{
    match names.get(var) {
        Some(name) => String::from_str(alloc, name),
        None => Ok(String::new(alloc)),
    }
}

impl Walk {
    /// The start of a walk.
    pub fn new(alloc: Global, names: Names) -> Result<Walk, OutOfMemory>
        ensures { IfOk result (λ w. w ≡ begun names) }
    {
        let met = vec![in alloc; false; names.len() as usize]?;
        Ok(Walk {
            met,
            names,
            prefix: Vec::new(alloc),
            renamings: Vec::new(alloc),
        })
    }

    /// Whether a quantifier for this variable is a copy.
    fn is_copy(&self, var: Var) -> bool
        ensures { result ≡ is_copy self.now.walked var.0 }
    {
        let place = var.0 as usize;
        place < self.met.len() && self.met[place] && self.names.len() < u32::MAX
    }

    /// A quantifier for this variable is met for the first time.
    fn meet(&mut self, var: Var)
        ensures { self.new ≡ record self.old { walked = met_first self.old.walked var.0 } }
    {
        let place = var.0 as usize;
        if place < self.met.len() {
            self.met[place] = true;
        }
    }

    /// A quantifier for this variable is met again: the next variable, with the name of this one.
    fn meet_again(&mut self, alloc: Global, var: Var) -> Result<Var, OutOfMemory>
        requires { length self.old.walked.names < 2 ^ 32 - 1 }
        ensures number { IfOk result (λ x. x.0 ≡ length self.old.walked.names) }
        ensures state { OnOk result (self.new ≡ record self.old {
          walked = named_again self.old.walked var.0;
          renamings = self.old.renamings ++ to_copy self.old.walked var.0 ∷ [];
        }) }
    {
        let to = Var(self.names.len());
        let name = name_again(alloc, &self.names, var)?;
        self.names.push(name)?;
        self.renamings.push(Renaming { from: var, to })?;
        Ok(to)
    }

    /// A quantifier is met.
    fn enter(&mut self, alloc: Global, quantifier: Quantifier) -> Result<(), OutOfMemory>
        ensures { OnOk result (self.new ≡ in_body quantifier.kind quantifier.var.0 self.old) }
    {
        let var = if self.is_copy(quantifier.var) {
            self.meet_again(alloc, quantifier.var)?
        } else {
            self.meet(quantifier.var);
            quantifier.var
        };
        self.prefix.push(Quantifier {
            kind: quantifier.kind,
            var,
        })?;
        Ok(())
    }
}

/// Walks through the formula, or through its negation, and builds the matrix.
#[cycle(open)]
pub fn open(
    alloc: Global,
    walk: &mut Walk,
    form: &Form,
    polarity: Polarity,
) -> Result<Form, OutOfMemory>
    ensures state { OnOk result (walk.new ≡ (opened polarity (tree form.now) walk.old).1) }
    ensures matrix { IfOk result (λ f. tree f ≡ (opened polarity (tree form.now) walk.old).0) }
{
    match form {
        Form::True => Ok(polarity.truth()),
        Form::False => Ok(polarity.flipped().truth()),
        Form::Atom(atom) => open_atom(alloc, &walk.renamings, atom, polarity),
        Form::And(parts) => {
            let matrices = open_all(alloc, walk, parts, polarity)?;
            Ok(polarity.conjunction(matrices))
        }
        Form::Or(parts) => {
            let matrices = open_all(alloc, walk, parts, polarity)?;
            Ok(polarity.flipped().conjunction(matrices))
        }
        Form::Not(inner) => open(alloc, walk, inner, polarity.flipped()),
        Form::Implies(left, right) => {
            let first = open(alloc, walk, left, polarity.flipped())?;
            let second = open(alloc, walk, right, polarity)?;
            polarity.flipped().pair(alloc, first, second)
        }
        Form::Iff(left, right) => {
            // both or neither; in the negation one without the other
            let first = open(alloc, walk, left, Polarity::Positive)?;
            let second = open(alloc, walk, right, polarity)?;
            let one = Polarity::Positive.pair(alloc, first, second)?;
            let third = open(alloc, walk, left, Polarity::Negative)?;
            let fourth = open(alloc, walk, right, polarity.flipped())?;
            let other = Polarity::Positive.pair(alloc, third, fourth)?;
            Polarity::Negative.pair(alloc, one, other)
        }
        Form::Ex(var, body) => {
            let kind = polarity.kind();
            open_body(alloc, walk, Quantifier { kind, var: *var }, body, polarity)
        }
        Form::All(var, body) => {
            let kind = polarity.flipped().kind();
            open_body(alloc, walk, Quantifier { kind, var: *var }, body, polarity)
        }
    }
}

/// The matrix of the body of a quantifier.
#[cycle(open)]
fn open_body(
    alloc: Global,
    walk: &mut Walk,
    quantifier: Quantifier,
    body: &Form,
    polarity: Polarity,
) -> Result<Form, OutOfMemory>
    ensures state { let s = in_body quantifier.kind quantifier.var.0 walk.old in
        OnOk result (walk.new ≡ past_body (length walk.old.renamings)
        (opened polarity (tree body.now) s).1) }
    ensures matrix { let s = in_body quantifier.kind quantifier.var.0 walk.old in
        IfOk result (λ f. tree f ≡ (opened polarity (tree body.now) s).0) }
{
    let depth = walk.renamings.len();
    walk.enter(alloc, quantifier)?;
    let matrix = open(alloc, walk, body, polarity)?;
    walk.renamings.truncate(depth);
    Ok(matrix)
}

/// The matrices of the parts, in order.
#[cycle(open)]
fn open_all(
    alloc: Global,
    walk: &mut Walk,
    forms: &Forms,
    polarity: Polarity,
) -> Result<Forms, OutOfMemory>
    ensures state { OnOk result (walk.new ≡ (opened_each polarity (trees forms.now) walk.old).1) }
    ensures matrix { IfOk result (λ fs. trees fs
        ≡ (opened_each polarity (trees forms.now) walk.old).0) }
{
    let mut matrices = Sequence::new(alloc);
    for form in forms.items() {
        matrices.push(open(alloc, walk, form, polarity)?)?;
    }
    Ok(matrices)
}
