//! The tree of a plan, and that its leaves are the matches.
//!
//! A plan over the parts of a graph is a staged tree: a context of a stage stands at a vertex of one machine and leads to
//! contexts of the following stage, on the machines of their vertices, or at the last stage to a row. `ahead`
//! (specs/Answers.antt) says what a context leads to from a place on, for any words; `tree_of` (specs/PlanTree.antt) is
//! the tree. Both are definitions alone: this crate has no code.
//!
//! Its laws (specs/Laws.antt): moves that bind each variable and put each test lead to each match once
//! (`MovesLeadToAll`); whoever owns the vertices and however many machines there are, the leaves of a plan's tree stand for
//! the matches of its query, each for one, with their captured values (`LeavesAreAll`); rows that are these leaves in any
//! order are what `collect` takes (`RowsAreAll`), where each value of the graph has the kind that the query expects
//! (`HasKinds`); and such a tree keeps the promises of a staged tree (`PlansMakeTrees`).
#![tactic(auto)]

pub mod laws;
