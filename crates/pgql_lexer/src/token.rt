//! Tokens, and why a text has none.
use std::alloc::AllocError;

/// What a token is.
#[derive(Clone, Copy, Debug, PartialEq, Eq)]
pub enum TokenKind {
    /// An ASCII letter or `_`, then ASCII letters, digits and `_`: a name or a keyword.
    Word,
    /// One or more decimal digits, with a value of at most 9223372036854775807.
    Number,
    /// A text between single quotes, in UTF-8. Two single quotes inside stand for one.
    Text,
    /// One of `( ) [ ] , : . | + - * / % = <> < <= > >=`.
    Symbol,
}

/// A token, and where its bytes begin and end in the file. The quotes of a text are among them.
#[derive(Clone, Copy, Debug, PartialEq, Eq)]
pub struct Token {
    pub kind: TokenKind,
    pub at: u32,
    pub end: u32,
}

/// Why a text has no tokens, and where in the file. Of several reasons it is the first in the text.
#[derive(Clone, Copy, Debug, PartialEq, Eq)]
pub enum LexFault {
    /// A byte that begins no token, or in a text literal the first byte after its longest front in UTF-8.
    BadCharacter(u32),
    /// A text literal that isn't closed; the place of its first quote.
    OpenText(u32),
    /// A comment that isn't closed; the place of its first byte.
    OpenComment(u32),
    /// A number above 9223372036854775807; the place of its first digit.
    WideNumber(u32),
    /// Memory ran out.
    NoMemory,
}

impl From<AllocError> for LexFault {
    ghost use Rattle.std.specs.Prelude.{◌≡◌};
    ghost use Rattle.pgql_lexer.specs.declared.token.LexFault.TheVariants.{NoMemory};

    ghost from_gives = { λ _ e. e ≡ NoMemory };

    fn from(_: AllocError) -> LexFault {
        LexFault::NoMemory
    }
}
