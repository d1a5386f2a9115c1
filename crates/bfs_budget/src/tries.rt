//! What a worker may try in a turn, in its order.
ghost use Rattle.std.specs.Prelude.{◌≡◌, ◌+◌, ◌<◌, ◌≤◌, [], ◌∷◌, ◌++◌, length};
ghost use Rattle.bfs_budget.specs.Tries.{actions_of, only_if, unoccupied_actions, waiting_actions};

use std::marker::Model;

/// A step that a turn may try.
#[derive(Clone, Copy, Debug, PartialEq, Eq)]
pub enum Attempt {
    /// The one step of a hand that is not free.
    Hand,
    /// The buffer of a message frame that is over goes back to its pool.
    Restore,
    /// The top's next answer.
    Advance,
    /// The full buffer that is open for the waiting child leaves.
    PostOwn,
    /// The waiting child goes into the buffer that is open for it.
    Append,
    /// A credit for a buffer for the waiting child.
    Charge,
    /// The waiting child becomes the top.
    Descend,
    /// One of the other open buffers leaves, those of the highest stage first, then those of the lowest machine.
    PostOthers,
    /// A message of a stage above the top's comes in, those of the highest stage first.
    Pop,
    /// A chunk of the machine's roots.
    Claim,
    /// The worker ends its claims.
    Retire,
    /// The next word of the stage that closes.
    Mark,
    /// The stage is closed.
    Close,
}

/// What the list of a worker's attempts goes by.
#[derive(Clone, Copy, Debug, PartialEq, Eq)]
pub struct HandState {
    /// 0 for a free hand, then 1 to 4 for one that is charged, posted, popped or emptied.
    pub hand: u32,
    /// The stage of the top of the stack, `None` on an empty stack.
    pub top: Option<u32>,
    /// The machine of the child that the top waits with, and whether that is the worker's own.
    pub waiting: Option<(u32, bool)>,
    /// Whether the top is a message frame that is over.
    pub over: bool,
    /// Whether a buffer with room is open for the waiting child.
    pub open_room: bool,
    /// Whether a full buffer is open for the waiting child.
    pub open_full: bool,
    /// Whether the worker may still claim roots.
    pub enrolled: bool,
}

/// The most attempts that a list has.
pub const MOST_TRIES: usize = 6;

/// A list of attempts, which a contract sees as such.
#[derive(Drop)]
pub struct Tries {
    attempts: [Attempt; MOST_TRIES],
    count: usize,
}

impl Model for Tries {
    ghost use Rattle.std.specs.Prelude.{List, ◌≤◌, take};
    ghost use Rattle.bfs_budget.specs.declared.tries.Attempt.{Attempt};

    ghost Value = { List Attempt };

    ghost view = { λ t. take t.count t.attempts };

    ghost invariant = { λ t. t.count ≤ 6 };
}

impl Tries {
    fn new() -> Tries
        ensures { result ≡ [] }
    {
        Tries {
            attempts: [Attempt::Hand; MOST_TRIES],
            count: 0,
        }
    }

    fn push(&mut self, attempt: Attempt)
        requires { length self.old < 6 }
        ensures { self.new ≡ self.old ++ attempt ∷ [] }
    {
        self.attempts[self.count] = attempt;
        self.count += 1;
    }

    fn push_if(&mut self, condition: bool, attempt: Attempt)
        requires { length self.old < 6 }
        ensures { self.new ≡ self.old ++ only_if condition attempt }
    {
        if condition {
            self.push(attempt);
        }
    }

    /// The attempts in their order.
    pub fn items(&self) -> &[Attempt]
        ensures items { result.now ≡ self.now }
        ensures few { length self.now ≤ 6 }
    {
        &self.attempts[..self.count]
    }
}

/// The attempts of a worker in this state, in the order in which a turn makes them.
pub fn actions(state: &HandState) -> Tries
    ensures { result ≡ actions_of state.now }
{
    let mut tries = Tries::new();
    if state.hand != 0 {
        tries.push(Attempt::Hand);
    } else if state.top.is_none() {
        push_unoccupied(&mut tries, state.enrolled);
    } else if state.over {
        tries.push(Attempt::Restore);
    } else if let Some((_, local)) = state.waiting {
        push_waiting(&mut tries, state, local);
    } else {
        tries.push(Attempt::Advance);
    }
    tries
}

/// The attempts of a worker with an empty stack.
fn push_unoccupied(tries: &mut Tries, enrolled: bool)
    requires { tries.old ≡ [] }
    ensures { tries.new ≡ unoccupied_actions enrolled }
{
    tries.push(Attempt::Pop);
    tries.push(Attempt::PostOthers);
    tries.push_if(enrolled, Attempt::Claim);
    tries.push_if(enrolled, Attempt::Retire);
    tries.push(Attempt::Mark);
    tries.push(Attempt::Close);
}

/// The attempts of a worker whose top waits with a child.
fn push_waiting(tries: &mut Tries, state: &HandState, local: bool)
    requires { tries.old ≡ [] }
    ensures { tries.new ≡ waiting_actions state.now local }
{
    tries.push_if(state.open_full, Attempt::PostOwn);
    tries.push_if(state.open_room, Attempt::Append);
    tries.push_if(!state.open_full && !state.open_room, Attempt::Charge);
    tries.push_if(local, Attempt::Descend);
    tries.push(Attempt::PostOthers);
    tries.push(Attempt::Pop);
}
