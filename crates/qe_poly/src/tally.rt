//! Monomials in order, each with what is known of the coefficients that meet there.

ghost use Rattle.std.specs.Prelude.{◌≡◌, map, IfOk, MatchResult};
ghost use Rattle.qe_halt.specs.declared.halt.Halt.{Halt};
ghost use Rattle.qe_poly.specs.Tally.{empty_tally, tally_more, shown_group, enter_tally, IsInOrder, IsPlace};

use crate::limit::PolyStop;
use crate::monomial::Monomial;
use qe_coef::{Coef, Wide};
use std::cmp::Ordering;

/// The sum of coefficients, the sum of their magnitudes, and the first addition of a magnitude that left the range.
/// While the magnitudes are in range, the sum is.
#[derive(Clone, Copy)]
pub struct Tally {
    pub sum: Coef,
    pub magnitude: Coef,
    pub over: Option<Wide>,
}

impl Tally {
    /// The tally of no coefficients.
    fn new() -> Tally
        ensures { result ≡ empty_tally }
    {
        Tally {
            sum: Coef::zero(),
            magnitude: Coef::zero(),
            over: None,
        }
    }

    /// The tally with one more coefficient.
    fn with(self, coef: Coef) -> Tally
        ensures { result ≡ tally_more self coef }
    {
        if self.over.is_some() {
            return self;
        }
        match self.magnitude.add(coef.magnitude()) {
            Ok(magnitude) => Tally {
                sum: self.sum.add(coef).unwrap_or(self.sum),
                magnitude,
                over: None,
            },
            Err(wide) => Tally {
                sum: self.sum,
                magnitude: self.magnitude,
                over: Some(wide),
            },
        }
    }
}

/// A monomial with the tally of its coefficients.
#[derive(Drop)]
pub struct Group {
    pub monomial: Monomial,
    pub tally: Tally,
}

/// Where a monomial stands among groups in order, or else where it is to be put.
fn place(groups: &[Group], monomial: &Monomial) -> Result<usize, usize>
    requires { IsInOrder groups.now }
    ensures { IsPlace monomial.now groups.now result }
{
    let mut low = 0;
    let mut high = groups.len();
    while low < high {
        let middle = low + (high - low) / 2;
        match groups[middle].monomial.compare(monomial) {
            Ordering::Less => high = middle,
            Ordering::Equal => return Ok(middle),
            Ordering::Greater => low = middle + 1,
        }
    }
    Err(low)
}

/// Enters one more term among groups in order.
pub fn enter(groups: &mut Vec<Group>, monomial: Monomial, coef: Coef) -> Result<(), PolyStop>
    requires { IsInOrder groups.now.items }
    ensures order { IfOk result (λ _. IsInOrder groups.new.items) }
    ensures entered { MatchResult result
        (λ _. map shown_group groups.new.items
        ≡ enter_tally (monomial, coef) (map shown_group groups.old.items))
        (λ stop. stop ≡ Halt.OutOfMemory) }
{
    match place(groups, &monomial) {
        Ok(i) => {
            let group = &mut groups[i];
            group.tally = group.tally.with(coef);
            Ok(())
        }
        Err(i) => {
            let tally = Tally::new().with(coef);
            groups.insert(i, Group { monomial, tally })?;
            Ok(())
        }
    }
}
