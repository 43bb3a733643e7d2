//! The candidates of a formula.

ghost use Rattle.std.specs.Prelude.{◌≡◌, ◌≤◌, ◌++◌, ◌∷◌, [], true, false, IfOk, OnOk, All, map};
ghost use Rattle.qe_poly.specs.Polynomial.{IsPolynomial};
ghost use Rattle.qe_form.specs.Measures.{degree};
ghost use Rattle.qe_form.specs.Plain.{IsPlain};
ghost use Rattle.qe_form.specs.Tree.{tree, trees};
ghost use Rattle.qe_root.specs.Atoms as formula;
ghost use Rattle.qe_points.specs.Candidates as spec;
ghost use Rattle.qe_points.specs.Guarded.{IsOf};
ghost use Rattle.qe_points.specs.Complete.{IsComplete};

use crate::candidate::Spot;
use crate::{Candidate, Form, OutOfMemory, Poly, Var, Which};
use indexmap::IndexMap;
use qe_form::{Atom, Forms};
use std::alloc::Global;

/// The different polynomials of some atoms in the order of these, each with the number of the first
/// atom that has it.
type Found = IndexMap<Poly, u64>;

/// The polynomials with a variable, of the atoms whose signs have zero and of the others.
#[derive(Drop)]
struct Groups {
    zero: Found,
    other: Found,
}

/// Adds the atoms of a formula from left to right.
#[cycle(gather)]
fn gather<'a>(form: &'a Form, atoms: &mut Vec<&'a Atom>) -> Result<(), OutOfMemory>
    ensures { OnOk result (map (λ a. a.now) atoms.new.items
        ≡ map (λ a. a.now) atoms.old.items ++ formula.atoms (tree form.now)) }
{
    match form {
        Form::Atom(atom) => {
            atoms.push(atom)?;
            Ok(())
        }
        Form::And(parts) | Form::Or(parts) => gather_each(parts, atoms),
        _ => Ok(()),
    }
}

/// Adds the atoms of each part, in order.
#[cycle(gather)]
fn gather_each<'a>(parts: &'a Forms, atoms: &mut Vec<&'a Atom>) -> Result<(), OutOfMemory>
    ensures { OnOk result (map (λ a. a.now) atoms.new.items
        ≡ map (λ a. a.now) atoms.old.items ++ formula.atoms_of (trees parts.now)) }
{
    for part in parts.items() {
        gather(part, atoms)?;
    }
    Ok(())
}

/// Adds a polynomial with the number of its atom, unless it is there.
fn note(alloc: Global, found: &mut Found, poly: &Poly, atom: u64) -> Result<(), OutOfMemory>
    ensures { OnOk result (found.new.entries ≡ spec.with_one found.old.entries (poly.now, atom)) }
{
    if !found.contains_key(poly) {
        found.insert(poly.copy(alloc)?, atom)?;
    }
    Ok(())
}

/// The polynomials with the variable.
fn grouped(alloc: Global, x: Var, atoms: &[&Atom]) -> Result<Groups, OutOfMemory>
    ensures zero { IfOk result (λ g. g.zero.entries
        ≡ spec.distinct (spec.numbered x.0 true 0 (map (λ a. a.now) atoms.now))) }
    ensures other { IfOk result (λ g. g.other.entries
        ≡ spec.distinct (spec.numbered x.0 false 0 (map (λ a. a.now) atoms.now))) }
    ensures canonical { IfOk result (λ _. All (λ a. IsPolynomial a.now.poly) atoms.now) }
{
    let mut zero = IndexMap::new(alloc);
    let mut other = IndexMap::new(alloc);
    for (number, atom) in atoms.iter().enumerate() {
        if atom.poly.degree_in(x) > 0 {
            if atom.signs.has_zero() {
                note(alloc, &mut zero, &atom.poly, number as u64)?;
            } else {
                note(alloc, &mut other, &atom.poly, number as u64)?;
            }
        }
    }
    Ok(Groups { zero, other })
}

/// Adds the candidates that come from the roots of a polynomial.
fn add_roots(
    alloc: Global,
    x: Var,
    spot: Spot,
    poly: Poly,
    atom: u64,
    candidates: &mut Vec<Candidate>,
) -> Result<(), OutOfMemory>
    ensures { OnOk result (candidates.new.items
        ≡ candidates.old.items ++ spec.roots_of x.0 (spec.is_above spot) (poly, atom)) }
{
    let plus = spot.is_above();
    let degree = poly.degree_in(x);
    if degree == 1 {
        candidates.push(Candidate::Root {
            poly,
            atom,
            which: Which::Linear,
            plus,
        })?;
    } else if degree == 2 {
        let linear = poly.copy(alloc)?;
        candidates.push(Candidate::Root {
            poly: linear,
            atom,
            which: Which::Linear,
            plus,
        })?;
        let upper = poly.copy(alloc)?;
        candidates.push(Candidate::Root {
            poly: upper,
            atom,
            which: Which::Upper,
            plus,
        })?;
        candidates.push(Candidate::Root {
            poly,
            atom,
            which: Which::Lower,
            plus,
        })?;
    }
    Ok(())
}

/// Adds those of each polynomial, in order.
fn add_each(
    alloc: Global,
    x: Var,
    spot: Spot,
    found: Found,
    candidates: &mut Vec<Candidate>,
) -> Result<(), OutOfMemory>
    ensures { OnOk result (candidates.new.items
        ≡ candidates.old.items ++ spec.roots x.0 (spec.is_above spot) found.entries) }
{
    for (poly, atom) in found {
        add_roots(alloc, x, spot, poly, atom, candidates)?;
    }
    Ok(())
}

/// Where a formula has to be tested in a variable, after Loos and Weispfenning (1993) and
/// Weispfenning (1997). First come the roots of the different polynomials that have the variable,
/// of the atoms whose signs have zero, in the order in which these atoms first have them; then what
/// is just above the roots of those of the other atoms, in the same order; last what is below all
/// numbers. A polynomial of degree one gives its root, one of degree two `Linear`, `Upper` and
/// `Lower`, and one of a higher degree nothing. Each keeps the number of the first atom of its
/// group that has the polynomial; all atoms of the formula are numbered from 0, from left to right.
/// The clause `canonical` tells what the formula's type keeps. `Err` only where memory runs out.
pub fn candidates(alloc: Global, form: &Form, x: Var) -> Result<Vec<Candidate>, OutOfMemory>
    ensures exact { IfOk result (λ cs. cs.items ≡ spec.candidates x.0 (tree form.now)) }
    ensures each { IfOk result (λ cs. All (IsOf x.0 (tree form.now)) cs.items) }
    ensures complete { IfOk result (λ cs. IsPlain (tree form.now) → degree x.0 (tree form.now) ≤ 2
        → IsComplete x.0 (tree form.now) cs.items) }
    ensures canonical { IfOk result
        (λ _. IsPlain (tree form.now) → formula.HasCanonicalAtoms (tree form.now)) }
{
    let mut atoms = Vec::new(alloc);
    gather(form, &mut atoms)?;
    let groups = grouped(alloc, x, &atoms)?;
    let mut candidates = Vec::new(alloc);
    add_each(alloc, x, Spot::At, groups.zero, &mut candidates)?;
    add_each(alloc, x, Spot::Above, groups.other, &mut candidates)?;
    candidates.push(Candidate::MinusInf)?;
    Ok(candidates)
}
