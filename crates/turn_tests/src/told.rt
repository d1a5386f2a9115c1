//! A policy that answers what it is told, and keeps what it was shown.
ghost use Rattle.std.specs.Prelude.{◌≡◌};

use bfs_budget::{Look, Policy};

#[derive(Drop)]
pub struct Told {
    pub answer: u32,
    /// What it was shown last.
    pub look: Option<Look>,
    /// How often it was asked.
    pub asked: u32,
}

impl Policy for Told {
    ghost answer = { λ told _. told.answer };

    fn choose(&mut self, look: &Look) -> u32 {
        self.look = Some(*look);
        self.asked = self.asked.saturating_add(1);
        self.answer
    }
}
