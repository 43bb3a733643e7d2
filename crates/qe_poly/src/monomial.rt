//! Variables, their powers, and products of powers.

ghost use Rattle.std.specs.Prelude.{◌≡◌, ◌≤◌, ◌↔◌, [], true, false, IsTrue, IfOk, MatchOption};
ghost use Rattle.std.proofs.Common.{rules};
ghost use Rattle.std.specs.Ordering.{as_partial_cmp};
ghost use Rattle.std.specs.Cmp.{partial_equiv_from_equiv, partial_order_from_own_ties};
ghost use Rattle.std.specs.Cmp.Rules.{comparing};
ghost use Rattle.qe_poly.specs.Monomial.{monomial_cmp, power, power_cmp, times, is_high, IsMonomial};
ghost use Rattle.qe_poly.specs.Coefficients.{exponent_of, without, lowered};
ghost use Rattle.qe_poly.specs.Renamed.{renamed_monomial};
ghost use Rattle.qe_poly.specs.Occurs.{occurs_in};
ghost use Rattle.qe_poly.specs.Equal.{monomial_eq, monomial_eq_equiv, monomial_fed, monomial_fed_alike};

use std::alloc::{AllocError, Global};
use std::cmp::Ordering;
use std::hash::{Hash, Hasher};
use std::marker::Model;

/// A variable, by its number.
#[derive(Clone, Copy, Debug, PartialEq, Eq, Hash, PartialOrd, Ord)]
pub struct Var(pub u32);

/// A variable with its exponent, which is positive in a monomial.
#[derive(Clone, Copy, Debug, PartialEq, Eq, Hash)]
pub struct Power {
    pub var: Var,
    pub exponent: u16,
}

impl Ord for Power {
    ghost use Rattle.qe_poly.specs.Monomial.{power_cmp};

    ghost cmp = { power_cmp };

    ghost total = { Prim.search (comparing, rules) };

    ghost matches_partial_cmp = { Prim.search (comparing, rules) };

    ghost matches_eq = { Prim.search (comparing, rules) };

    /// The lower variable is greater, and for one variable the greater exponent.
    fn cmp(&self, other: &Power) -> Ordering {
        other
            .var
            .cmp(&self.var)
            .then(self.exponent.cmp(&other.exponent))
    }
}

impl PartialOrd for Power {
    ghost use Rattle.qe_poly.specs.Monomial.{power_cmp};

    ghost partial_cmp = { as_partial_cmp power_cmp };

    ghost laws = { partial_order_from_own_ties (Prim.search (comparing, rules)) (Prim.search (comparing, rules)) };

    fn partial_cmp(&self, other: &Power) -> Option<Ordering> {
        Some(self.cmp(other))
    }
}

/// A product of powers, in the order of their variables; without any it is 1.
#[derive(Drop)]
pub struct Monomial {
    powers: Vec<Power>,
}

impl Model for Monomial {
    ghost use Rattle.std.specs.Prelude.{List, ◌≡◌, false};
    ghost use Rattle.qe_poly.specs.Monomial.{IsMonomial, is_high};
    ghost use Rattle.qe_poly.specs.declared.monomial.Power.{Power};

    ghost Value = { List Power };

    ghost view = { λ m. m.powers.items };

    ghost invariant = { λ m. IsMonomial m.powers.items × (is_high m.powers.items ≡ false) };
}

/// The powers without that of a variable.
fn powers_without(alloc: Global, powers: &[Power], var: Var) -> Result<Vec<Power>, AllocError>
    ensures { IfOk result (λ v. v.items ≡ without var.0 powers.now) }
{
    let mut kept = Vec::new(alloc);
    for i in 0..powers.len() {
        let power = powers[i];
        if power.var == var {
            kept.extend_from_slice(&powers[i + 1..])?;
            return Ok(kept);
        }
        kept.push(power)?;
    }
    Ok(kept)
}

/// The powers with the exponent of a variable less by one.
fn powers_lowered(alloc: Global, powers: &[Power], var: Var) -> Result<Vec<Power>, AllocError>
    ensures { IfOk result (λ v. v.items ≡ lowered var.0 powers.now) }
{
    let mut kept = Vec::new(alloc);
    for i in 0..powers.len() {
        let power = powers[i];
        if power.var == var {
            if power.exponent > 1 {
                kept.push(Power {
                    var: power.var,
                    exponent: power.exponent - 1,
                })?;
            }
            kept.extend_from_slice(&powers[i + 1..])?;
            return Ok(kept);
        }
        kept.push(power)?;
    }
    Ok(kept)
}

/// Whether the exponents of one variable add to more than 65,535.
fn has_high_product(left: &[Power], right: &[Power]) -> bool
    requires left_low { is_high left.now ≡ false }
    requires right_low { is_high right.now ≡ false }
    ensures { result ≡ is_high (times left.now right.now) }
{
    let mut i = 0;
    let mut j = 0;
    while i < left.len() && j < right.len() {
        let a = left[i];
        let b = right[j];
        match a.var.0.cmp(&b.var.0) {
            Ordering::Less => i += 1,
            Ordering::Equal => {
                if a.exponent.checked_add(b.exponent).is_none() {
                    return true;
                }
                i += 1;
                j += 1;
            }
            Ordering::Greater => j += 1,
        }
    }
    false
}

/// The powers of a product, or `None` where an exponent would be over 65,535.
fn powers_product(
    alloc: Global,
    left: &[Power],
    right: &[Power],
) -> Result<Option<Vec<Power>>, AllocError>
    requires left_low { is_high left.now ≡ false }
    requires right_low { is_high right.now ≡ false }
    ensures { let product = times left.now right.now in
        IfOk result (λ o. MatchOption o (is_high product ≡ true)
        (λ v. (v.items ≡ product) × (is_high product ≡ false))) }
{
    let mut powers = Vec::new(alloc);
    let mut i = 0;
    let mut j = 0;
    while i < left.len() && j < right.len() {
        let a = left[i];
        let b = right[j];
        match a.var.0.cmp(&b.var.0) {
            Ordering::Less => {
                powers.push(a)?;
                i += 1;
            }
            Ordering::Equal => {
                let Some(exponent) = a.exponent.checked_add(b.exponent) else {
                    return Ok(None);
                };
                powers.push(Power {
                    var: a.var,
                    exponent,
                })?;
                i += 1;
                j += 1;
            }
            Ordering::Greater => {
                powers.push(b)?;
                j += 1;
            }
        }
    }
    powers.extend_from_slice(&left[i..])?;
    powers.extend_from_slice(&right[j..])?;
    Ok(Some(powers))
}

impl Monomial {
    /// The monomial 1. It takes no memory.
    pub fn one(alloc: Global) -> Monomial
        ensures { result ≡ [] }
    {
        Monomial {
            powers: Vec::new(alloc),
        }
    }

    /// A power of one variable, which is 1 for the exponent 0. The exponent is at most 65,535.
    pub fn power(alloc: Global, var: Var, exponent: u32) -> Result<Monomial, AllocError>
        requires { exponent ≤ 65535 }
        ensures { IfOk result (λ m. m ≡ power var exponent) }
    {
        let mut powers = Vec::new(alloc);
        if exponent != 0 {
            powers.push(Power {
                var,
                exponent: exponent as u16,
            })?;
        }
        Ok(Monomial { powers })
    }

    /// The powers, in the order of their variables.
    pub fn powers(&self) -> &[Power]
        ensures { result.now ≡ self.now }
    {
        self.powers.as_slice()
    }

    /// Whether it is 1.
    pub fn is_one(&self) -> bool
        ensures { IsTrue result ↔ (self.now ≡ []) }
    {
        self.powers.is_empty()
    }

    /// The same monomial in memory of its own.
    pub fn copy(&self, alloc: Global) -> Result<Monomial, AllocError>
        ensures { IfOk result (λ m. m ≡ self.now) }
    {
        let powers = Vec::from_slice(alloc, &self.powers)?;
        Ok(Monomial { powers })
    }

    /// The exponent of a variable, 0 where it does not occur. The clause `canonical` tells what the type keeps.
    pub fn exponent_of(&self, var: Var) -> u32
        ensures exponent { result ≡ exponent_of var.0 self.now }
        ensures canonical { IsMonomial self.now × (is_high self.now ≡ false) }
    {
        for power in &self.powers {
            if power.var == var {
                return power.exponent as u32;
            }
        }
        0
    }

    /// The monomial without its power of a variable.
    pub fn without(&self, alloc: Global, var: Var) -> Result<Monomial, AllocError>
        ensures { IfOk result (λ m. m ≡ without var.0 self.now) }
    {
        let powers = powers_without(alloc, &self.powers, var)?;
        Ok(Monomial { powers })
    }

    /// The monomial with the exponent of a variable less by one; the same where it does not occur.
    pub fn lowered(&self, alloc: Global, var: Var) -> Result<Monomial, AllocError>
        ensures { IfOk result (λ m. m ≡ lowered var.0 self.now) }
    {
        let powers = powers_lowered(alloc, &self.powers, var)?;
        Ok(Monomial { powers })
    }

    /// The monomial with the variable `to`, which does not occur in it, in the place of `from`.
    pub fn renamed(&self, alloc: Global, from: Var, to: Var) -> Result<Monomial, AllocError>
        requires { occurs_in to.0 self.now ≡ false }
        ensures { IfOk result (λ m. m ≡ renamed_monomial from to self.now) }
    {
        let power = Monomial::power(alloc, to, self.exponent_of(from))?;
        match power.times(alloc, &self.without(alloc, from)?)? {
            Some(monomial) => Ok(monomial),
            None => unreachable!(),
        }
    }

    /// Whether the product has an exponent over 65,535.
    pub fn has_high_product(&self, other: &Monomial) -> bool
        ensures { result ≡ is_high (times self.now other.now) }
    {
        has_high_product(&self.powers, &other.powers)
    }

    /// The product, or `None` where an exponent would be over 65,535.
    pub fn times(&self, alloc: Global, other: &Monomial) -> Result<Option<Monomial>, AllocError>
        ensures { let product = times self.now other.now in
            IfOk result (λ o. MatchOption o (is_high product ≡ true)
            (λ m. (m ≡ product) × (is_high product ≡ false))) }
    {
        match powers_product(alloc, &self.powers, &other.powers)? {
            Some(powers) => Ok(Some(Monomial { powers })),
            None => Ok(None),
        }
    }

    /// The order of monomials: the lowest variable decides first, and the greater exponent is greater.
    pub fn compare(&self, other: &Monomial) -> Ordering
        ensures { result ≡ monomial_cmp self.now other.now }
    {
        self.powers.as_slice().cmp(other.powers.as_slice())
    }
}

impl PartialEq for Monomial {
    ghost eq = { monomial_eq };

    ghost laws = { partial_equiv_from_equiv monomial_eq_equiv };

    fn eq(&self, other: &Monomial) -> bool {
        self.powers == other.powers
    }
}

impl Eq for Monomial {
    ghost laws = { monomial_eq_equiv };
}

impl Hash for Monomial {
    ghost hash_input = { monomial_fed };

    ghost respects_eq = { monomial_fed_alike };

    fn hash<H: Hasher>(&self, state: &mut H) {
        self.powers.hash(state);
    }
}
