//! Tokens of a program text.

use hip_tokens::{Lexer, Token, last_line};
use std::process::Abort;

fn is_same(token: Token<'_>, wanted: Token<'_>) -> bool {
    match (token, wanted) {
        (Token::Word(a), Token::Word(b))
        | (Token::Label(a), Token::Label(b))
        | (Token::Local(a), Token::Local(b))
        | (Token::Global(a), Token::Global(b))
        | (Token::Num(a), Token::Num(b))
        | (Token::Str(a), Token::Str(b)) => a == b,
        (Token::Punctuation(a), Token::Punctuation(b)) | (Token::Odd(a), Token::Odd(b)) => a == b,
        _ => false,
    }
}

/// Whether the next token is this one, in this line.
fn is_next(lexer: &mut Lexer<'_>, wanted: Token<'_>, wanted_line: u64) -> bool {
    match lexer.next_token() {
        Some((token, line)) => line == wanted_line && is_same(token, wanted),
        None => false,
    }
}

/// Asserts the tokens that a text begins with, each with its line.
fn assert_begins(rt: &impl Abort, lexer: &mut Lexer<'_>, tokens: &[(Token<'_>, u64)]) {
    for (number, (token, line)) in tokens.iter().enumerate() {
        assert!(rt; is_next(lexer, *token, *line), "token {number}");
    }
}

const TWO_LINES: &[(Token<'_>, u64)] = &[
    (Token::Global(b"x"), 1),
    (Token::Punctuation(b'='), 1),
    (Token::Word(b"global"), 1),
    (Token::Word(b"i64"), 1),
    (Token::Num(b"-07"), 1),
    (Token::Word(b"x"), 1),
    (Token::Local(b"y"), 2),
    (Token::Odd(b':'), 2),
    (Token::Str(b"a;b"), 2),
    (Token::Odd(b'-'), 2),
    (Token::Odd(b'"'), 2),
    (Token::Word(b"c"), 2),
];

#[test]
fn longest_tokens(rt: HostRuntime) {
    let mut lexer = Lexer::new(b"@x=global i64 -07x ; \"no string\n%y: \"a;b\" - \"c\n");
    assert_begins(&rt, &mut lexer, TWO_LINES);
    assert!(rt; lexer.next_token().is_none());
}

const THIRD_LINE: &[(Token<'_>, u64)] = &[
    (Token::Label(b".l-1$"), 3),
    (Token::Odd(b'%'), 3),
    (Token::Num(b"1"), 3),
    (Token::Odd(b'@'), 3),
    (Token::Str(b""), 3),
    (Token::Odd(b'\x0c'), 3),
    (Token::Word(b"tail-2"), 3),
];

#[test]
fn labels_and_odd_bytes(rt: HostRuntime) {
    let mut lexer = Lexer::new(b"\n\n.l-1$: %1 @\"\" \x0c tail-2");
    assert_begins(&rt, &mut lexer, THIRD_LINE);
    assert!(rt; lexer.next_token().is_none());
}

const LAST_LINES: &[(&str, u64)] = &[("", 1), ("a\n", 1), ("a\n\nb", 3)];

#[test]
fn last_lines(rt: HostRuntime) {
    for (text, line) in LAST_LINES {
        assert!(rt; last_line(text.as_bytes()) == *line, "{text}");
    }
}
