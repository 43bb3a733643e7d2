//! How a call ended.

ghost use Rattle.std.specs.Prelude.{◌≡◌};
ghost use Rattle.qe_program.specs.Status.{code_of};

/// How a call of the program ended. Each but `Ok`, `ReadFault`, `WriteFault` and `OutOfMemory` has a line that was written.
#[derive(Clone, Copy, Debug, PartialEq, Eq)]
pub enum Status {
    /// The answer was written.
    Ok,
    /// The words of the command line give no job.
    Usage,
    /// The input could not be read.
    ReadFault,
    /// The input has more bytes than are read.
    InputTooLong,
    /// The input has a fault, or its formula is not eliminated so far.
    BadInput,
    /// A formula would have too many atoms.
    TooLarge,
    /// A variable has a degree over two.
    DegreeExcess,
    /// A coefficient left its range.
    Overflow,
    /// A polynomial has too many monomials or too high an exponent.
    TermLimit,
    /// A block has more nodes than are allowed.
    NodeLimit,
    /// The answer could not be written whole.
    WriteFault,
    /// There was no memory; nothing was written.
    OutOfMemory,
}

impl Status {
    /// The exit status of the program: 0 to 11 in the order of the variants.
    pub fn code(self) -> u8
        ensures { result ≡ code_of self }
    {
        self as u8
    }
}
