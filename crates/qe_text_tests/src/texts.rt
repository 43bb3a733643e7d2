//! A text that is read and printed, and the texts of a name and of a polynomial, once each.

use qe_form::{Names, Poly, Var};
use qe_print::{form_text, name_text, poly_text};
use qe_read::read;
use std::alloc::{AllocError, Global};
use std::test::Fail;

/// What is read from the text, printed again.
fn reprinted(alloc: Global, text: &str) -> Option<Vec<u8>> {
    if text.len() > 100 {
        return None;
    }
    let Ok(input) = read(alloc, text.as_bytes()) else {
        return None;
    };
    form_text(alloc, &input.form, &input.names).ok()
}

fn is_reprinted(alloc: Global, text: &str) -> bool {
    matches!(&reprinted(alloc, text), Some(found) if found.as_slice() == text.as_bytes())
}

#[test]
fn reads_and_prints(rt: HostRuntime) {
    let text = "ex x. [4*a*c - b^2 <= 0 and a <> 0] implies [not [true or x = 0]]";
    assert!(rt; is_reprinted(rt.alloc(), text));
}

/// The names x and x.
fn repeated(alloc: Global) -> Result<Names, AllocError> {
    let mut names = Names::new(alloc);
    names.push(String::from_str(alloc, "x")?)?;
    names.push(String::from_str(alloc, "x")?)?;
    Ok(names)
}

#[test]
fn prints_a_name_and_a_polynomial(rt: HostRuntime) -> Result<(), Fail> {
    let names = repeated(rt.alloc())?;
    let name = name_text(rt.alloc(), Var(1), &names)?;
    assert_eq!(rt; name.as_slice(), "x#1".as_bytes());
    let square = Poly::power(rt.alloc(), Var(1), 2)?;
    let text = poly_text(rt.alloc(), &square, &names)?;
    assert_eq!(rt; text.as_slice(), "x^2".as_bytes());
    Ok(())
}
