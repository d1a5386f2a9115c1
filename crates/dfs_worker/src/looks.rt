//! The facts by which a worker's attempts are listed, and what its policy is shown.
ghost use Rattle.std.specs.Prelude.{◌≡◌};
ghost use Rattle.dfs_worker.specs.Guards.{top_over, child_test_by};
ghost use Rattle.dfs_worker.specs.Slots.{has_room};
ghost use Rattle.dfs_worker.specs.Sound.{IsWorker};
ghost use Rattle.dfs_worker.specs.Turn.{hand_number, top_stage, waiting_state, is_full, hand_state_of, look_of};

use crate::guards::is_over;
use crate::hand::Hand;
use crate::worker::Worker;
use bfs_budget::{HandState, Look};

/// The number of what is in hand.
fn hand_number(hand: &Hand) -> u32
    ensures { result ≡ hand_number hand.now }
{
    match hand {
        Hand::Free => 0,
        Hand::Charged { .. } => 1,
        Hand::Posted(_) => 2,
        Hand::Popped(_) => 3,
        Hand::Emptied { .. } => 4,
    }
}

/// What the order of its attempts goes by, and what its policy is shown.
impl Worker {
    /// The facts by which its attempts are listed.
    pub fn hand_state(&self) -> HandState
        requires { IsWorker self.now }
        ensures { result ≡ hand_state_of self.now }
    {
        let child = self.waiting();
        HandState {
            hand: hand_number(self.hand()),
            top: self.top_stage(),
            waiting: self.waiting_state(child),
            over: self.is_top_over(),
            open_room: self.has_room_for(child),
            open_full: self.is_full_for(child),
            enrolled: self.enrolled(),
        }
    }

    /// What its policy is shown, before one of so many attempts.
    pub fn look(&self, count: u32) -> Look
        requires { IsWorker self.now }
        ensures { result ≡ record (look_of self.now) { count = count } }
    {
        Look {
            stage: match self.top_stage() {
                Some(stage) => stage,
                None => 0,
            },
            local: match self.waiting() {
                Some((_, to)) => to == self.machine(),
                None => false,
            },
            count,
        }
    }

    fn top_stage(&self) -> Option<u32>
        ensures { result ≡ top_stage self.now.stack }
    {
        match self.top() {
            Some(top) => Some(top.stage),
            None => None,
        }
    }

    fn is_top_over(&self) -> bool
        ensures { result ≡ top_over self.now.stack }
    {
        match self.top() {
            Some(top) => is_over(&top.rest),
            None => false,
        }
    }

    fn waiting_state(&self, child: Option<(u32, u32)>) -> Option<(u32, bool)>
        ensures { result ≡ waiting_state self.now.machine child }
    {
        match child {
            Some((_, to)) => Some((to, to == self.machine())),
            None => None,
        }
    }

    /// Whether a buffer with room is open for that stage and machine.
    fn has_room_for(&self, child: Option<(u32, u32)>) -> bool
        ensures { result ≡ child_test_by (has_room self.now.slots) child }
    {
        match child {
            Some((stage, to)) => self.has_room(stage, to),
            None => false,
        }
    }

    /// Whether a full buffer is open for that stage and machine.
    fn is_full_for(&self, child: Option<(u32, u32)>) -> bool
        ensures { result ≡ child_test_by (is_full self.now.slots) child }
    {
        match child {
            Some((stage, to)) => self.is_open(stage, to) && !self.has_room(stage, to),
            None => false,
        }
    }
}
