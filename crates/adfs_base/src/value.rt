//! The kinds of values, and a value.

/// What a property's values are.
#[derive(Clone, Copy, Debug, PartialEq, Eq)]
pub enum Kind {
    /// A whole number of 64 bits with its sign.
    Int,
    /// UTF-8 text.
    Text,
    /// True or false.
    Bool,
    /// A civil date of the years 0000 to 9999.
    Date,
}

/// A value of a property or of an expression.
#[derive(Clone, Copy, Debug, PartialEq, Eq)]
pub enum Value {
    /// No value: an empty cell, or the outcome of an operation that has none.
    Null,
    Int(i64),
    /// The number of a text, in the list of texts that goes with the value.
    Text(u32),
    Bool(bool),
    /// A day, counted from 1 January 1970, which is day 0.
    Date(i32),
}
