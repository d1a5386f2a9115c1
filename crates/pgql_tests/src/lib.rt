//! Tests of the query language's tokens, trees and texts, over public calls alone.
//!
//! Their crates are proved without them, so that no test is proved with each change of those. What can be said
//! with files and a command line is said by cases that the built program runs.
#![tactic(auto)]

#[cfg(test)]
mod texts;
#[cfg(test)]
mod tokens;
#[cfg(test)]
mod trees;
