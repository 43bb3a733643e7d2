//! Whole numbers of 128 bits whose arithmetic is exact or says which operation was too wide.
//! Knows nothing of polynomials.
#![tactic(auto)]

ghost use Rattle.std.specs.Prelude.{◌≡◌, ◌≢◌, ◌^◌, ◌+ℤ◌, ◌-ℤ◌, ◌*ℤ◌, neg_ℤ, pos, unsigned_abs, MatchOption, ◌≤ℤ◌};
ghost use Rattle.std.specs.Int.{IsGcd};
ghost use Rattle.std.specs.Int.RustNames.{int_lt};
ghost use Rattle.std.specs.Ordering.{int_eq};
ghost use Rattle.qe_coef.specs.Range.{IsInRange, Divides};
ghost use Rattle.qe_coef.specs.Exact.{IsExact};

use std::marker::Model;

/// A whole number from `-(2^127-1)` to `2^127-1`. The range is symmetric, so that a negative is always in it.
#[derive(Clone, Copy, Debug, PartialEq, Eq, Hash)]
pub struct Coef {
    value: i128,
}

impl Model for Coef {
    ghost use Rattle.std.specs.Prelude.{ℤ};
    ghost use Rattle.qe_coef.specs.Range.{IsInRange};

    ghost Value = { ℤ };

    ghost view = { λ c. c.value };

    ghost invariant = { λ c. IsInRange c.value };

    ghost inverse = { λ v. record { value = v } };
}

/// The operations that can leave the range.
#[derive(Clone, Copy, Debug, PartialEq, Eq, Hash)]
pub enum Op {
    Add,
    Sub,
    Mul,
}

/// An operation whose exact result is out of range, with its two arguments.
#[derive(Clone, Copy, Debug, PartialEq, Eq, Hash)]
pub struct Wide {
    pub op: Op,
    pub left: Coef,
    pub right: Coef,
}

impl Coef {
    /// The coefficient of a number; `None` for `-2^127` alone.
    pub fn of(value: i128) -> Option<Coef>
        ensures exact { MatchOption result (value ≡ neg_ℤ (pos (2 ^ 127))) (λ c. c ≡ value) }
        ensures range { MatchOption result (IsInRange value → ⊥) (λ _. IsInRange value) }
    {
        if value == i128::MIN {
            None
        } else {
            Some(Coef { value })
        }
    }

    /// The coefficient 0.
    pub fn zero() -> Coef
        ensures { result ≡ pos 0 }
    {
        Coef { value: 0 }
    }

    /// The coefficient of a number of 64 bits.
    pub fn small(value: i64) -> Coef
        ensures { result ≡ value }
    {
        Coef {
            value: value as i128,
        }
    }

    /// Whether it is 0.
    pub fn is_zero(self) -> bool
        ensures { result ≡ int_eq self (pos 0) }
    {
        self.value == 0
    }

    /// Whether it is 1.
    pub fn is_one(self) -> bool
        ensures { result ≡ int_eq self (pos 1) }
    {
        self.value == 1
    }

    /// Whether it is below 0.
    pub fn is_negative(self) -> bool
        ensures { result ≡ int_lt self (pos 0) }
    {
        self.value < 0
    }

    /// The number.
    pub fn value(self) -> i128
        ensures value { result ≡ self }
        ensures range { IsInRange self }
    {
        self.value
    }

    /// The number without its sign.
    pub fn magnitude(self) -> Coef
        ensures { result ≡ pos (unsigned_abs self) }
    {
        if self.value < 0 {
            Coef { value: -self.value }
        } else {
            self
        }
    }

    /// The negative.
    pub fn neg(self) -> Coef
        ensures { result ≡ neg_ℤ self }
    {
        Coef { value: -self.value }
    }

    /// The sum, or `Wide` where it is out of range.
    pub fn add(self, other: Coef) -> Result<Coef, Wide>
        ensures { IsExact Op.Add self other result }
    {
        let wide = Wide {
            op: Op::Add,
            left: self,
            right: other,
        };
        match self.value.checked_add(other.value) {
            Some(value) => Coef::of(value).ok_or(wide),
            None => Err(wide),
        }
    }

    /// The difference, or `Wide` where it is out of range.
    pub fn sub(self, other: Coef) -> Result<Coef, Wide>
        ensures { IsExact Op.Sub self other result }
    {
        let wide = Wide {
            op: Op::Sub,
            left: self,
            right: other,
        };
        match self.value.checked_sub(other.value) {
            Some(value) => Coef::of(value).ok_or(wide),
            None => Err(wide),
        }
    }

    /// The product, or `Wide` where it is out of range.
    pub fn mul(self, other: Coef) -> Result<Coef, Wide>
        ensures { IsExact Op.Mul self other result }
    {
        let wide = Wide {
            op: Op::Mul,
            left: self,
            right: other,
        };
        match self.value.checked_mul(other.value) {
            Some(value) => Coef::of(value).ok_or(wide),
            None => Err(wide),
        }
    }

    /// The greatest common divisor, never negative; that of 0 and 0 is 0.
    pub fn gcd(self, other: Coef) -> Coef
        ensures sign { pos 0 ≤ℤ result }
        ensures gcd { IsGcd (unsigned_abs self) (unsigned_abs other) (unsigned_abs result) }
    {
        let mut a = self.value.unsigned_abs();
        let mut b = other.value.unsigned_abs();
        while b != 0 {
            let rest = a % b;
            a = b;
            b = rest;
        }
        Coef { value: a as i128 }
    }

    /// The quotient of a multiple of `by`, which is not 0.
    pub fn exact_div(self, by: Coef) -> Coef
        requires nonzero { by ≢ pos 0 }
        requires divides { Divides by self }
        ensures { self ≡ result *ℤ by }
    {
        Coef {
            value: self.value / by.value,
        }
    }
}
