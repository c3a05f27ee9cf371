//! One token at a time.

ghost use Rattle.std.specs.Prelude.{◌≡◌, ℕ, true, List, ◌<◌, ◌≤◌, ◌+◌, ◌^◌, length, slice_index, ◌∷◌, [], ◌==◌};
ghost use Rattle.hip_tokens.specs.Tokens.{piece, piece_at, name_here, word_piece, number_piece, minus_piece, local_piece, global_piece, string_piece, cut, tokens};
ghost use Rattle.hip_tokens.specs.Longest.{IsLongest};
ghost use Rattle.hip_tokens.specs.Seen.{seen, IsNext};

use crate::bytes::*;

/// A token. Its text is a part of the program's text, without the sigil, the `:` or the quotes.
#[derive(Clone, Copy)]
pub enum Token<'a> {
    Word(&'a [u8]),
    Label(&'a [u8]),
    Local(&'a [u8]),
    Global(&'a [u8]),
    Num(&'a [u8]),
    Str(&'a [u8]),
    Punctuation(u8),
    Odd(u8),
}

fn is_byte(bytes: &[u8], at: usize, b: u8) -> bool
    requires { 0 < b }
    ensures value { result ≡ (slice_index bytes.now at == b) }
    ensures within { result ≡ true → at < length bytes.now }
{
    at < bytes.len() && bytes[at] == b
}

#[tactic(auto, unfolding(crate::specs::Tokens::word_piece))]
fn word_at<'a>(bytes: &'a [u8], b: u8, rest: &'a [u8]) -> (Token<'a>, usize)
    requires { bytes.now ≡ b ∷ rest.now }
    ensures value { piece (seen result.0) result.1 ≡ word_piece b rest.now }
    ensures within { result.1 ≤ length rest.now }
{
    let n = name_len(rest);
    let text = &bytes[..n + 1];
    if is_byte(rest, n, b':') {
        (Token::Label(text), n + 1)
    } else {
        (Token::Word(text), n)
    }
}

#[tactic(auto, unfolding(crate::specs::Tokens::number_piece))]
fn number_at<'a>(bytes: &'a [u8], b: u8, rest: &'a [u8]) -> (Token<'a>, usize)
    requires { bytes.now ≡ b ∷ rest.now }
    ensures value { piece (seen result.0) result.1 ≡ number_piece b rest.now }
    ensures within { result.1 ≤ length rest.now }
{
    let n = digits_len(rest);
    (Token::Num(&bytes[..n + 1]), n)
}

#[tactic(auto, unfolding(crate::specs::Tokens::minus_piece))]
fn minus_at<'a>(bytes: &'a [u8], rest: &'a [u8]) -> (Token<'a>, usize)
    requires { bytes.now ≡ 45 ∷ rest.now }
    ensures value { piece (seen result.0) result.1 ≡ minus_piece rest.now }
    ensures within { result.1 ≤ length rest.now }
{
    if digits_len(rest) == 0 {
        (Token::Odd(b'-'), 0)
    } else {
        number_at(bytes, b'-', rest)
    }
}

/// Whether a name begins here.
fn name_here(rest: &[u8]) -> bool
    ensures { result ≡ name_here rest.now }
{
    match rest {
        [] => false,
        [b, ..] => begins_name(*b),
    }
}

#[tactic(auto, unfolding(crate::specs::Tokens::local_piece))]
fn local_at(rest: &[u8]) -> (Token, usize)
    ensures value { piece (seen result.0) result.1 ≡ local_piece rest.now }
    ensures within { result.1 ≤ length rest.now }
{
    if !name_here(rest) {
        return (Token::Odd(b'%'), 0);
    }
    let n = name_len(rest);
    (Token::Local(&rest[..n]), n)
}

#[tactic(auto, unfolding(crate::specs::Tokens::global_piece))]
fn global_at(rest: &[u8]) -> (Token, usize)
    ensures value { piece (seen result.0) result.1 ≡ global_piece rest.now }
    ensures within { result.1 ≤ length rest.now }
{
    if !name_here(rest) {
        return (Token::Odd(b'@'), 0);
    }
    let n = name_len(rest);
    (Token::Global(&rest[..n]), n)
}

#[tactic(auto, unfolding(crate::specs::Tokens::string_piece))]
fn string_at(rest: &[u8]) -> (Token, usize)
    ensures value { piece (seen result.0) result.1 ≡ string_piece rest.now }
    ensures within { result.1 ≤ length rest.now }
{
    let n = string_len(rest);
    if is_byte(rest, n, b'"') {
        (Token::Str(&rest[..n]), n + 1)
    } else {
        (Token::Odd(b'"'), 0)
    }
}

/// The longest token at the front, and how many bytes it has after its first byte.
#[tactic(auto, unfolding(crate::specs::Tokens::piece_at))]
fn token_at<'a>(bytes: &'a [u8], b: u8, rest: &'a [u8]) -> (Token<'a>, usize)
    requires { bytes.now ≡ b ∷ rest.now }
    ensures value { piece (seen result.0) result.1 ≡ piece_at b rest.now }
    ensures within { result.1 ≤ length rest.now }
{
    if begins_name(b) {
        word_at(bytes, b, rest)
    } else if is_digit(b) {
        number_at(bytes, b, rest)
    } else if b == b'-' {
        minus_at(bytes, rest)
    } else if b == b'%' {
        local_at(rest)
    } else if b == b'@' {
        global_at(rest)
    } else if b == b'"' {
        string_at(rest)
    } else if is_mark(b) {
        (Token::Punctuation(b), 0)
    } else {
        (Token::Odd(b), 0)
    }
}

/// The rest of a text, and the line on which it begins.
#[derive(Drop)]
pub struct Lexer<'a> {
    pub rest: &'a [u8],
    pub line: u64,
    ghost countable: { line + length rest.now < 2 ^ 64 },
}

impl<'a> Lexer<'a> {
    pub fn new(text: &'a [u8]) -> Lexer<'a>
        ensures { cut result.line 0 result.rest.now ≡ tokens text.now }
    {
        Lexer {
            rest: text,
            line: 1,
        }
    }

    /// The next token with its line, or none at the end.
    #[tactic(auto, unfolding(crate::specs::Tokens::cut))]
    pub fn next_token(&mut self) -> Option<(Token<'a>, u64)>
        ensures { IsNext (cut self.old.line 0 self.old.rest.now) result (cut self.new.line 0 self.new.rest.now) }
    {
        while let Some((b, rest)) = self.rest.split_first() {
            if is_blank(*b) {
                if *b == b'\n' {
                    self.line += 1;
                }
                self.rest = rest;
            } else if *b == b';' {
                self.rest = rest.split_at(comment_len(rest)).1;
            } else {
                let (token, more) = token_at(self.rest, *b, rest);
                self.rest = rest.split_at(more).1;
                return Some((token, self.line));
            }
        }
        None
    }
}

/// The bytes at a place spell the token that is taken there, and no token that begins there is longer.
pub fn tokens_are_longest()
    ensures { (b : ℕ) (bs : List ℕ) → IsLongest b bs (piece_at b bs) }
{}
