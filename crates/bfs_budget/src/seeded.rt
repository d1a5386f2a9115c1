//! The policy that draws by a seed.
ghost use Rattle.std.specs.Prelude.{◌≡◌, ◌%◌, ◌^◌};
ghost use Rattle.seeded_draws.specs.Draws.{draw, next_state};

use crate::policy::{Look, Policy};
use seeded_draws::Draws;

/// Begins where the numbers of a seed say, by the lower half of each draw. It holds the state of the draws.
#[derive(Clone, Copy, Debug, PartialEq, Eq)]
pub struct Seeded(pub u64);

impl Policy for Seeded {
    ghost answer = { λ s _. draw (next_state s.0) % 2 ^ 32 };

    fn choose(&mut self, look: &Look) -> u32
        ensures answer { result ≡ draw (next_state self.old.0) % 2 ^ 32 }
        ensures state { self.new.0 ≡ next_state self.old.0 }
    {
        let _ = look;
        let mut draws = Draws { state: self.0 };
        let number = draws.next();
        self.0 = draws.state;
        (number % 4_294_967_296) as u32
    }
}
