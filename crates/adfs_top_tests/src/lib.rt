//! Tests of the top call over stores and sinks that fail at a call that is told. What files and words can show stands in
//! tests/, and is run by the program.
#![tactic(auto)]

#[cfg(test)]
mod failing;
