//! Plans of queries: a pattern as stages that are joined by hops.
//!
//! A plan goes through the pattern of a query from its first vertex on. Each hop goes along an edge from the
//! vertex at which one stands: to a new vertex (`Neighbour`), or to one that is bound already (`Edge`). Where
//! no edge that is left begins or ends there, one turns back to a vertex that is bound (`Inspect`). `Output`
//! comes last. Which hop comes next is a rule on the edges in the order of the text (`next_hop`,
//! specs/Hops.antt, specs/Front.antt).
//!
//! A stage is what happens between two moves from machine to machine: one arrives at a vertex, and takes a hop.
//! On the way captures become known, those of a vertex on arrival and those of an edge along the hop, and a part
//! of the condition is tested as soon as the last capture that it uses is known (specs/Walk.antt). A `Stage`
//! holds what of this depends on the plan alone.
//!
//! `plan_query` gives exactly `plan_of` (specs/Plans.antt), or says how many words a match needs where a context
//! has no room for them. `put_plan` writes exactly `plan_text` (specs/PlanText.antt). Each plan is whole
//! (`laws::plans_are_whole`): seen as moves along a graph it binds each variable once, going only from what is
//! bound, and it puts each test of the query once (specs/Moves.antt, specs/Laws.antt).
#![tactic(auto)]

mod fault;
mod hop;
pub mod laws;
mod numbers;
mod plan;
mod planner;
mod put;
mod stage;
mod walk;

pub use fault::PlanFault;
pub use hop::Hop;
pub use numbers::Numbers;
pub use plan::{Plan, plan_query};
pub use put::put_plan;
pub use stage::{Gains, Stage};
