//! The text of a variable's name.

ghost use Rattle.std.specs.Prelude.{◌≡◌, IfOk};
ghost use Rattle.qe_print.specs.Name.{bearers, name_text};

use crate::OutOfMemory;
use qe_form::{Names, Var};
use std::alloc::Global;
use std::fmt::Write;

/// How many variables have this name.
fn bearers(names: &Names, name: &str) -> usize
    ensures { result ≡ bearers names.now name.now }
{
    names
        .items()
        .iter()
        .filter(|other| other.as_str() == name)
        .count()
}

/// The name of a variable as it stands, but where another of `names` is the same: the name, `#` and the variable's
/// number, as in `x#2`. A variable without a name has no text. `Err` only where memory runs out.
pub fn name_text(alloc: Global, var: Var, names: &Names) -> Result<Vec<u8>, OutOfMemory>
    ensures { IfOk result (λ text. text.items ≡ name_text names.now var.0) }
{
    let mut out = String::new(alloc);
    if let Some(name) = names.get(var) {
        out.push_str(name)?;
        if bearers(names, name) > 1 {
            write!(out, "#{}", var.0)?;
        }
    }
    Ok(out.into_bytes())
}
