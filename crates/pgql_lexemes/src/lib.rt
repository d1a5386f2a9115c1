//! The tokens of a query as its grammar tells them, and what reads them one after the other.
//!
//! A *token* is what `pgql_lexer` finds in a text: a word, a number, a text literal or a symbol, and where it
//! lies. A *lexeme* is a token as the grammar sees it: its kind (which keyword, which symbol), the bytes that
//! are written, and its place. `specs/Seen.antt` says which lexeme a token is (`seen`), and `Lexeme` has what
//! its bytes mean: a name, a number, the content of a literal.
//!
//! An `Input` is a cursor over lexemes. A contract sees it as the list of those that are left, and says of a
//! function that reads what it gives and what it leaves (`Reads`, specs/Reads.antt): an outcome of a parser
//! (`specs/Parsers.antt`), unless memory runs out. No list of tokens is made: each is read from the text when the
//! one before it is taken.
#![tactic(auto)]

mod input;
mod kind;
mod lexeme;
mod literal;
mod meaning;
mod operators;
mod seen;

pub use input::{Input, Stop, deeper};
pub use kind::Kind;
pub use lexeme::Lexeme;
pub use operators::{comparison, operator};
