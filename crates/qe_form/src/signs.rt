//! Sets of signs.

ghost use Rattle.std.specs.Prelude.{◌≡◌};
ghost use Rattle.qe_form.specs.Signs.{bits, union, intersection, complement, mirror, strict, is_even};

/// A set of signs out of minus, zero and plus.
#[derive(Clone, Copy, Debug, PartialEq, Eq, Hash, PartialOrd, Ord)]
pub struct Signs {
    plus: bool,
    zero: bool,
    minus: bool,
}

impl Signs {
    /// The sign of a polynomial that is less than zero.
    pub const LESS: Signs = Signs {
        plus: false,
        zero: false,
        minus: true,
    };

    /// The signs of one that is at most zero.
    pub const LESS_OR_EQUAL: Signs = Signs {
        plus: false,
        zero: true,
        minus: true,
    };

    /// The sign of one that is zero.
    pub const EQUAL: Signs = Signs {
        plus: false,
        zero: true,
        minus: false,
    };

    /// The signs of one that is not zero.
    pub const NOT_EQUAL: Signs = Signs {
        plus: true,
        zero: false,
        minus: true,
    };

    /// The signs of one that is at least zero.
    pub const GREATER_OR_EQUAL: Signs = Signs {
        plus: true,
        zero: true,
        minus: false,
    };

    /// The sign of one that is greater than zero.
    pub const GREATER: Signs = Signs {
        plus: true,
        zero: false,
        minus: false,
    };

    /// The set that has each sign whose argument is true.
    pub fn of(minus: bool, zero: bool, plus: bool) -> Signs
        ensures { result ≡ record { plus = plus; zero = zero; minus = minus } }
    {
        Signs { plus, zero, minus }
    }

    /// The sum of 1 for minus, 2 for zero and 4 for plus: from 0, for no sign, to 7, for all of them.
    pub fn bits(self) -> u8
        ensures { result ≡ bits self }
    {
        u8::from(self.minus) + 2 * u8::from(self.zero) + 4 * u8::from(self.plus)
    }

    /// The signs in either set.
    pub fn union(self, other: Signs) -> Signs
        ensures { result ≡ union self other }
    {
        Signs {
            plus: self.plus || other.plus,
            zero: self.zero || other.zero,
            minus: self.minus || other.minus,
        }
    }

    /// The signs in both sets.
    pub fn intersect(self, other: Signs) -> Signs
        ensures { result ≡ intersection self other }
    {
        Signs {
            plus: self.plus && other.plus,
            zero: self.zero && other.zero,
            minus: self.minus && other.minus,
        }
    }

    /// The signs outside the set.
    pub fn complement(self) -> Signs
        ensures { result ≡ complement self }
    {
        Signs {
            plus: !self.plus,
            zero: !self.zero,
            minus: !self.minus,
        }
    }

    /// The signs of the negatives: minus and plus change places.
    pub fn mirror(self) -> Signs
        ensures { result ≡ mirror self }
    {
        Signs {
            plus: self.minus,
            zero: self.zero,
            minus: self.plus,
        }
    }

    /// Whether minus is in the set.
    pub fn has_minus(self) -> bool
        ensures { result ≡ self.minus }
    {
        self.minus
    }

    /// Whether plus is in the set.
    pub fn has_plus(self) -> bool
        ensures { result ≡ self.plus }
    {
        self.plus
    }

    /// Whether zero is in the set.
    pub fn has_zero(self) -> bool
        ensures { result ≡ self.zero }
    {
        self.zero
    }

    /// The signs without zero.
    pub fn strict(self) -> Signs
        ensures { result ≡ strict self }
    {
        Signs {
            plus: self.plus,
            zero: false,
            minus: self.minus,
        }
    }

    /// Whether minus and plus are both in the set, or neither is.
    pub fn is_even(self) -> bool
        ensures { result ≡ is_even self }
    {
        self.minus == self.plus
    }
}
