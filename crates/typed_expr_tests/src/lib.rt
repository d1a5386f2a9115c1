//! Tests of `typed_expr` and `typed_query`, by their public calls alone.
//!
//! What a text can ask and bytes can answer is said by the cases that the built program runs. Here stands what
//! no reply shows: which numbers stand for names in a query, and values of expressions that no query has.
#![tactic(auto)]

#[cfg(test)]
mod tests;
