//! The line of an input's first fault.

ghost use Rattle.std.specs.Prelude.{◌≡◌, ◌≢◌, ◌++◌, OnOk, IfOk};
ghost use Rattle.std.specs.String.{string_bytes};
ghost use Rattle.std.specs.Fmt.{signed_decimal};
ghost use Rattle.qe_program.specs.Output.{operation_text, placed_text, wide_text, fault_text, fault_line};

use qe_base::OutOfMemory;
use qe_coef::Op;
use qe_read::{ReadFault, Wide};
use std::alloc::Global;
use std::fmt::Write;

fn operation_sign(op: Op) -> &'static str
    ensures { result.now ≡ operation_text op }
{
    match op {
        Op::Add => "+",
        Op::Sub => "-",
        Op::Mul => "*",
    }
}

/// Appends a kind of fault, and the offset where it is.
fn push_placed(out: &mut String, kind: &str, place: u32) -> Result<(), OutOfMemory>
    ensures { OnOk result (string_bytes out.new ≡ string_bytes out.old
        ++ placed_text kind.now place) }
{
    write!(out, "bad input: {kind} at {place}")
}

/// Appends an operation out of range: its first number, its sign and its second number.
pub fn push_wide(out: &mut String, wide: &Wide) -> Result<(), OutOfMemory>
    ensures { OnOk result (string_bytes out.new ≡ string_bytes out.old ++ wide_text wide.now) }
{
    let left = wide.left.value();
    let right = wide.right.value();
    write!(out, ": {left} {} {right}", operation_sign(wide.op))
}

/// Appends the text of a fault; out of memory has none.
fn push_fault(out: &mut String, fault: &ReadFault) -> Result<(), OutOfMemory>
    ensures text { OnOk result (string_bytes out.new ≡ string_bytes out.old
        ++ fault_text fault.now) }
    ensures fault { OnOk result (fault.now ≢ ReadFault.OutOfMemory) }
{
    match fault {
        ReadFault::Syntax(place) => push_placed(out, "syntax", *place),
        ReadFault::Wide(place) => push_placed(out, "wide literal", *place),
        ReadFault::Exponent(place) => push_placed(out, "exponent", *place),
        ReadFault::TooDeep(place) => push_placed(out, "too deep", *place),
        ReadFault::TooMany(place) => push_placed(out, "too many atoms", *place),
        ReadFault::Overflow(place, wide) => {
            push_placed(out, "overflow", *place)?;
            push_wide(out, wide)
        }
        ReadFault::Polynomial(place) => push_placed(out, "monomials", *place),
        ReadFault::OutOfMemory => Err(OutOfMemory),
    }
}

/// The line of a fault. `Err` where the fault is out of memory, or where memory runs out.
pub fn fault_line(alloc: Global, fault: &ReadFault) -> Result<Vec<u8>, OutOfMemory>
    ensures text { IfOk result (λ bytes. bytes.items ≡ fault_line fault.now) }
    ensures fault { IfOk result (λ _. fault.now ≢ ReadFault.OutOfMemory) }
{
    let mut out = String::new(alloc);
    push_fault(&mut out, fault)?;
    out.push_str("\n")?;
    Ok(out.into_bytes())
}
