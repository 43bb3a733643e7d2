//! A generated formula, printed.

use qe_gen::make;
use qe_print::form_text;
use std::alloc::Global;

/// The formula of the number 1, with its coefficients worked out from the rule.
const FIRST: &str =
    "ex x1. ex x2. ex x3. [4*x1 + 9*x2 - 5*x3 + 5 <= 0 or 6*a - 2*x1 + 7*x2 - 3*x3 - 4 <= 0] and [-5*a - 6*x1 + 7*x2 + x3 + 8 <= 0 or 5*a - 8*x1 + 9*x2 + 7*x3 + 3 <= 0] and [-2*a - 8*x1 - 6*x2 - 4*x3 <= 0 or -7*a - 6*x1 + 6*x3 - 1 <= 0] and [9*a - 2*x1 + 8*x2 - x3 <= 0 or 8*a + 4*x1 - x2 - 6*x3 + 3 <= 0] and [9*a - 7*x1 - 8*x2 - 9*x3 + 8 <= 0 or -7*a + 3*x1 + 6*x2 + 9*x3 - 4 <= 0] and [-2*a - 4*x1 + 3*x2 - 9*x3 + 5 <= 0 or 5*a - 9*x1 + 2*x2 - 6*x3 - 3 <= 0] and [-5*a + 7*x1 + 3*x2 - x3 - 9 <= 0 or 6*a + 6*x1 + 6*x2 + 6*x3 + 6 <= 0] and [7*x1 - 8*x2 - 4*x3 + 4 <= 0 or -4*a - 9*x1 - x2 + 7*x3 + 4 <= 0]";

/// The text of the formula of the number 1; `None` where memory runs out.
fn first_text(alloc: Global) -> Option<Vec<u8>> {
    let Ok(input) = make(alloc, 1) else {
        return None;
    };
    form_text(alloc, &input.form, &input.names).ok()
}

#[test]
fn makes_a_formula(rt: HostRuntime) {
    assert!(rt;
        matches!(&first_text(rt.alloc()), Some(text) if text.as_slice() == FIRST.as_bytes())
    );
}
