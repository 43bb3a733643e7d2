//! Copies, negations and simplified forms of formulas, from text to text.

use crate::built::read_input;
use qe_form::{Form, Input, OutOfMemory};
use qe_print::form_text;
use qe_simp::simplify;
use std::alloc::Global;

/// What is done with a formula.
#[derive(Clone, Copy)]
enum Step {
    Copied,
    Negated,
    Simplified,
}

use Step::{Copied, Negated, Simplified};

fn changed(alloc: Global, step: Step, form: Form) -> Result<Form, OutOfMemory> {
    match step {
        Copied => form.copy(alloc),
        Negated => form.negated(alloc),
        Simplified => simplify(alloc, form),
    }
}

fn changed_text(alloc: Global, step: Step, text: &str) -> Result<Vec<u8>, OutOfMemory> {
    let Input { form, names } = read_input(alloc, text)?;
    let form = changed(alloc, step, form)?;
    form_text(alloc, &form, &names)
}

fn is_changed(alloc: Global, step: Step, text: &str, want: &str) -> bool {
    match changed_text(alloc, step, text) {
        Ok(found) => found.as_slice() == want.as_bytes(),
        Err(_) => false,
    }
}

/// Each kind of formula stands in it.
const EACH_KIND: &str =
    "[ex x. true and [true implies [a < 0 iff false]]] and [not [all y. y > 0 or true]]";

const ROWS: &[(Step, &str, &str)] = &[
    (Copied, EACH_KIND, EACH_KIND),
    (
        Negated,
        "a < 0 and [a = 0 or false]",
        "a >= 0 or [a <> 0 and true]",
    ),
    (Negated, "ex x. true", "not [ex x. true]"),
    (Simplified, "2*a - 4 < 0 or 4 - 2*a <= 0", "true"),
    (Simplified, "a < 0 and 0 - a <= 0", "false"),
    // atoms are decided, or primitive with a positive leading coefficient
    (Simplified, "0 = 1", "false"),
    (Simplified, "0 - 3 <> 0", "true"),
    (Simplified, "6*a - 4*b < 0", "3*a - 2*b < 0"),
    (Simplified, "4*b - 6*a < 0", "3*a - 2*b > 0"),
    (Simplified, "0 - 3*b - 9 <= 0", "b + 3 >= 0"),
    // constants
    (Simplified, "true and a = 0", "a = 0"),
    (Simplified, "true or a = 0", "true"),
    (Simplified, "a = 0 and false", "false"),
    (Simplified, "a = 0 or false", "a = 0"),
    // atoms on one polynomial
    (Simplified, "a <= 0 and a <> 0 and 0 - a >= 0", "a < 0"),
    (Simplified, "a < 0 or a = 0", "a <= 0"),
    (Simplified, "a < 0 or a = 0 or 0 - a < 0", "true"),
    (Simplified, "[a < 0 and a > 0] or b = 0", "b = 0"),
    // order, nesting and repeats
    (Simplified, "b = 0 and a = 0 and b = 0", "a = 0 and b = 0"),
    (Simplified, "[b < 0 or a < 0] or a > 0", "a <> 0 or b < 0"),
    (
        Simplified,
        "b = 0 and a + b = 0 and a = 0",
        "a = 0 and a + b = 0 and b = 0",
    ),
    (
        Simplified,
        "[a < 0 or b < 0] and [b < 0 or a < 0]",
        "a < 0 or b < 0",
    ),
    (
        Simplified,
        "[a < 0 or b < 0] and a = 0",
        "a = 0 and [a < 0 or b < 0]",
    ),
];

#[test]
fn changes_formulas(rt: HostRuntime) {
    for (step, text, want) in ROWS {
        assert!(rt; is_changed(rt.alloc(), *step, text, want));
    }
}
