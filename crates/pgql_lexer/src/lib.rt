//! The words of a query file: its pieces, one for each query, and the tokens of a piece.
//!
//! `cut` finds the queries of a file, which stand between semicolons. `lex` reads one of them as a list of
//! tokens, or answers why it can't. Both read the text from its front, where one thing stands at a time:
//! whitespace, a comment, a word, a number, a text literal or a symbol, the longest that there is. So they
//! agree on where a literal or a comment ends.
//!
//! `specs/Fronts.antt` says what stands at the front of a text, `specs/Tokens.antt` and `specs/Pieces.antt`
//! what tokens and pieces a text has. The contracts promise exactly those. What a caller needs to know of
//! places (that tokens and pieces aren't empty, lie in the text and stand in order) is promised beside that.
//!
//! Places are bytes of the query file, counted from 0.
#![tactic(auto)]

mod fronts;
mod laws;
mod pieces;
mod scan;
mod token;
mod tokens;

pub use laws::{
    comments_end_at_the_first_close, literals_end_at_the_first_lone_quote, marks_cut_the_text,
    tokens_cut_the_text,
};
pub use pieces::cut;
pub use scan::{check, first_token};
pub use token::{LexFault, Token, TokenKind};
pub use tokens::lex;
