//! The tokens of a program's text: at each place the longest one, with its line.
#![tactic(auto)]

mod bytes;
mod lexer;
mod lines;

pub use bytes::{is_digit, is_name};
pub use lexer::{Lexer, Token, tokens_are_longest};
pub use lines::last_line;
