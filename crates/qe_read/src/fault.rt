//! Why a text is not read.

ghost use Rattle.std.specs.Prelude.{◌≡◌};

use crate::value::{Met, ValueStop};
use qe_coef::Wide;
use qe_poly::PolyLimit;
use qe_syntax::{ParseStop, TextFault};
use std::alloc::AllocError;

/// The first fault of a text, with the offset of its token or of its operator; or out of memory.
///
/// A fault of the grammar or of its limits comes before every limit of polynomials.
#[derive(Debug, Drop)]
pub enum ReadFault {
    /// No formula begins with the tokens up to and including this one. The end of the text is a token at its length.
    Syntax(u32),
    /// A number, not an exponent, above `2^127 - 1`.
    Wide(u32),
    /// An exponent above 65,535 of a name, or above 255 of another base; or a product with an exponent above 65,535.
    Exponent(u32),
    /// The token opens a level of nesting while 256 are open.
    TooDeep(u32),
    /// An atom, a constant or a bound name begins here, and 65,536 of these began before.
    TooMany(u32),
    /// An operation on coefficients out of range, with its two numbers.
    Overflow(u32, Wide),
    /// More than 4,096 monomials meet in a sum, a difference or a product.
    Polynomial(u32),
    OutOfMemory,
}

impl From<AllocError> for ReadFault {
    ghost use Rattle.std.specs.Prelude.{◌≡◌};
    ghost use Rattle.qe_read.specs.declared.fault.ReadFault.{ReadFault};

    ghost from_gives = { λ _ e. e ≡ ReadFault.OutOfMemory };

    fn from(_error: AllocError) -> ReadFault {
        ReadFault::OutOfMemory
    }
}

impl From<ParseStop> for ReadFault {
    ghost use Rattle.std.specs.Prelude.{◌≡◌};
    ghost use Rattle.qe_read.specs.Fault.{parse_fault};

    ghost from_gives = { λ stop e. e ≡ parse_fault stop };

    fn from(stop: ParseStop) -> ReadFault {
        match stop {
            ParseStop::Fault(TextFault::Syntax, place) => ReadFault::Syntax(place),
            ParseStop::Fault(TextFault::Wide, place) => ReadFault::Wide(place),
            ParseStop::Fault(TextFault::Exponent, place) => ReadFault::Exponent(place),
            ParseStop::Fault(TextFault::TooDeep, place) => ReadFault::TooDeep(place),
            ParseStop::Fault(TextFault::TooMany, place) => ReadFault::TooMany(place),
            ParseStop::OutOfMemory => ReadFault::OutOfMemory,
        }
    }
}

impl From<ValueStop> for ReadFault {
    ghost use Rattle.std.specs.Prelude.{◌≡◌};
    ghost use Rattle.qe_read.specs.Fault.{value_fault};

    ghost from_gives = { λ stop e. e ≡ value_fault stop };

    fn from(stop: ValueStop) -> ReadFault {
        let ValueStop::Limit(Met { place, limit }) = stop else {
            return ReadFault::OutOfMemory;
        };
        match limit {
            PolyLimit::Coefficient(wide) => ReadFault::Overflow(place, wide),
            PolyLimit::Exponent => ReadFault::Exponent(place),
            PolyLimit::Monomials => ReadFault::Polynomial(place),
        }
    }
}
