//! Tests of the crates that make answers: `sorted_lists`, `result_collect` and those below them, as a user calls them.
//! What the program itself shows of them stands in tests/.
#![tactic(auto)]

#[cfg(test)]
mod collected;
#[cfg(test)]
mod refused;
#[cfg(test)]
mod sorted;
