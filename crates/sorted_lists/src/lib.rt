//! Lists in order, as a definition and as a sort.
//!
//! `in_order` (specs/Sorted.antt) is what sorting means here: each item is put after those that come before
//! it. Where neither of two items comes before the other they stand as they stood. So for each list and each
//! order there is one list in order. `sort_by` gives exactly that list.
#![tactic(auto)]

mod sort;

pub use sort::sort_by;
