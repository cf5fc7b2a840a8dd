//! The lexemes of a Rust text.
//!
//! [`tokenize`] cuts a text into tokens, each a lexeme of the Rust Reference's part "Lexical
//! structure". Every text has tokens: a comment or a literal whose end is missing says so in its
//! kind, and a character with which no lexeme begins is [`TokenKind::Unknown`].
#![tactic(auto)]

mod character;
mod comment;
mod cursor;
mod first_token;
mod ident;
pub mod laws;
mod lex;
mod literal;
mod number;
mod quote;
mod raw_str;
mod relex;
mod scan;
mod shebang;
mod token;
mod tokens;

pub use character::{
    UNICODE_VERSION, is_horizontal_whitespace, is_id_continue, is_id_start, is_whitespace,
};
pub use cursor::Cursor;
pub use ident::{is_ascii_ident, is_ident};
pub use lex::tokenize;
pub use raw_str::{RawStrError, validate_raw_str};
pub use relex::{Kept, LexedText};
pub use shebang::strip_shebang;
pub use token::{Base, DocStyle, FrontmatterAllowed, GuardedStr, LiteralKind, Token, TokenKind};
pub use tokens::Tokens;
