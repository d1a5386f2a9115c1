//! Tests of the counters that running workers share, by the players of `credit_players`.
#![tactic(auto)]

#[cfg(test)]
mod tests;
