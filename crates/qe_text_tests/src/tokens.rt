//! The tokens of a text, and the tree of these tokens, once each.

use qe_syntax::{Formula, parse};
use qe_token::{Located, Name, Relation, Token, tokens};
use std::test::Fail;

const TEXT: &str = "x_1^2 <= 007";

const TOKENS: &[Located] = &[
    Located {
        token: Token::Name(Name { start: 0, end: 3 }),
        place: 0,
    },
    Located {
        token: Token::Caret(3),
        place: 3,
    },
    Located {
        token: Token::Number(2),
        place: 4,
    },
    Located {
        token: Token::Relation(6, Relation::LessOrEqual),
        place: 6,
    },
    Located {
        token: Token::Number(7),
        place: 9,
    },
];

#[test]
fn splits_a_text(rt: HostRuntime) -> Result<(), Fail> {
    let bytes = TEXT.as_bytes();
    assert!(rt; bytes.len() < 100);
    let found = tokens(rt.alloc(), bytes)?;
    assert_eq!(rt; found.as_slice(), TOKENS);
    Ok(())
}

#[test]
fn finds_the_tree(rt: HostRuntime) {
    let found = parse(rt.alloc(), TOKENS, 12);
    assert!(rt; matches!(&found, Ok(Formula::Atom(_))));
}
