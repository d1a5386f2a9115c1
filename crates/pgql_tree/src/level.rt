//! Levels of expressions.

ghost use Rattle.std.specs.Prelude.{◌≡◌};
ghost use Rattle.pgql_tree.specs.Levels as spec;

/// How tightly an expression binds, from the loosest to the tightest.
#[derive(Clone, Copy, Debug, PartialEq, Eq)]
pub enum Level {
    Or,
    And,
    Not,
    Test,
    Sum,
    Product,
    Sign,
    Primary,
}

impl Level {
    /// The next tighter level, or `Primary` for itself.
    ///
    /// The right side of a chain's operator has it, since chains group to the left.
    pub fn tighter(self) -> Level
        ensures { result ≡ spec.tighter self }
    {
        match self {
            Level::Or => Level::And,
            Level::And => Level::Not,
            Level::Not => Level::Test,
            Level::Test => Level::Sum,
            Level::Sum => Level::Product,
            Level::Product => Level::Sign,
            Level::Sign | Level::Primary => Level::Primary,
        }
    }
}
