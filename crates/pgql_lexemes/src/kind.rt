//! What the grammar tells tokens by.

ghost use Rattle.std.specs.Prelude.{◌≡◌};
ghost use Rattle.pgql_lexemes.specs.Words as spec;

/// The kind of a token: a keyword, a name, a literal or a symbol.
#[derive(Clone, Copy, PartialEq, Eq)]
pub enum Kind {
    Select,
    Distinct,
    As,
    Match,
    Where,
    Order,
    By,
    Asc,
    Desc,
    Limit,
    And,
    Or,
    Not,
    Is,
    Null,
    True,
    False,
    Date,
    /// A word that is no keyword.
    Name,
    Number,
    Text,
    Open,
    Close,
    OpenBracket,
    CloseBracket,
    Comma,
    Colon,
    Dot,
    Bar,
    Plus,
    Minus,
    Star,
    Slash,
    Percent,
    Equal,
    Unequal,
    Less,
    LessEqual,
    Greater,
    GreaterEqual,
}

impl Kind {
    /// Whether it is that of a keyword or a name.
    pub fn is_word(self) -> bool
        ensures { result ≡ spec.is_word self }
    {
        match self {
            Kind::Number
            | Kind::Text
            | Kind::Open
            | Kind::Close
            | Kind::OpenBracket
            | Kind::CloseBracket
            | Kind::Comma
            | Kind::Colon
            | Kind::Dot
            | Kind::Bar
            | Kind::Plus
            | Kind::Minus
            | Kind::Star
            | Kind::Slash
            | Kind::Percent
            | Kind::Equal
            | Kind::Unequal
            | Kind::Less
            | Kind::LessEqual
            | Kind::Greater
            | Kind::GreaterEqual => false,
            _ => true,
        }
    }
}
