//! What picks one of the tries.
ghost use Rattle.std.specs.Prelude.{◌≡◌, ℕ, ◌<◌, ◌%◌};

/// What a policy is shown before it chooses.
#[derive(Clone, Copy, Debug, PartialEq, Eq)]
pub struct Look {
    /// The stage of the top of the worker's stack, 0 on an empty stack.
    pub stage: u32,
    /// Whether the top waits with a child of the worker's own machine.
    pub local: bool,
    /// How many attempts the list has, at least 1.
    pub count: u32,
}

/// Says at which attempt of a list a turn begins.
pub trait Policy {
    ghost use Rattle.bfs_budget.specs.declared.policy.Look.{Look};

    /// What it answers to each look, by what it holds.
    ghost answer: { Self → Look → ℕ };

    /// The place at which to begin, which is taken modulo the number of places.
    fn choose(&mut self, look: &Look) -> u32
        requires { 0 < look.now.count }
        ensures { result ≡ answer self.old look.now };
}

/// Begins each turn at the first attempt of its list.
#[derive(Clone, Copy, Debug, PartialEq, Eq)]
pub struct Deepest;

impl Policy for Deepest {
    ghost answer = { λ _ _. 0 };

    #[inline]
    fn choose(&mut self, look: &Look) -> u32 {
        let _ = look;
        0
    }
}

/// The place that the policy chooses, in the range of the list.
#[inline]
pub fn choice<P: Policy>(policy: &mut P, look: &Look) -> u32
    requires { 0 < look.now.count }
    ensures chosen { result ≡ P.answer policy.old look.now % look.now.count }
    ensures in_range { result < look.now.count }
{
    let answer = policy.choose(look);
    if answer < look.count {
        answer
    } else {
        answer % look.count
    }
}
