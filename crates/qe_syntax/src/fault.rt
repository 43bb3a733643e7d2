//! What ends the reading of a text.

use qe_halt::Halt;

/// A fault of a text at one of its tokens, or at its end. Where a token has several, the first of these counts.
#[derive(Clone, Copy, Debug, PartialEq, Eq)]
pub enum TextFault {
    /// No text of the grammar begins with the tokens up to and including this one.
    Syntax,
    /// A number, not an exponent, above `2^127 - 1`.
    Wide,
    /// An exponent above 65,535 of a name, or above 255 of another base.
    Exponent,
    /// The token opens a level while 256 are open.
    TooDeep,
    /// An atom, a constant or a bound name begins here, and 65,536 of these began before.
    TooMany,
}

/// Why a text is not read.
#[derive(Debug, Drop)]
pub enum ParseStop {
    /// The first fault, and the offset of its token.
    Fault(TextFault, u32),
    OutOfMemory,
}

/// Why a part of a text is not read. The fault is that of the token that comes next.
pub type Stop = Halt<TextFault>;
