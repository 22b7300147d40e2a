//! The tokens of a text.
//!
//! A text has at most `LONGEST_MODEL` bytes of UTF-8. It splits whole into gaps and tokens: identifiers, the keywords of the language,
//! numbers, strings and symbols. Gaps are blanks and comments. Each token is the longest that begins at its place. Literals,
//! identifiers, nesting and the operators of an expression have limits.
#![tactic(auto)]

mod byte_set;
mod counts;
mod depth;
mod law;
mod lexer;
mod literals;
mod piece;
mod role;
mod sizes;
mod split;
mod tokens;

pub use law::{one_splitting, unbroken_tokens};
pub use lexer::{LexFault, lex};
pub use tokens::Tokens;
