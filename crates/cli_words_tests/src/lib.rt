//! Tests of command lines, over the public calls of `cli_words` alone, which is proved without them.
//!
//! Lines that are refused are cases for the built program, and stand with those.
#![tactic(auto)]

#[cfg(test)]
mod lines;
