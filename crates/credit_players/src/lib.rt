//! Workers that share counters, for the tests of `stage_credits`, over its public calls.
//!
//! A `Player` is a worker that holds at most one credit of an open buffer and one of a message in work. It makes its calls
//! with their conditions proved, as a worker of the engine does.
#![tactic(auto)]

mod closing;
mod crowd;
mod gauges;
mod player;
mod scenes;

pub use closing::{Answers, close_all};
pub use crowd::{claim_all, play_all, players};
pub use gauges::Gauges;
pub use player::{Buffer, Claims, Player};
pub use scenes::{Outcome, Round, claimed_by_two, closed_by_two, filled_by_one, played_by_four};
