//! The numbers that follow from a seed.
ghost use Rattle.std.specs.Prelude.{◌≡◌};
ghost use Rattle.seeded_draws.specs.Draws.{draw, next_state};

/// What is added to the state before each draw.
const STEP: u64 = 0x9E37_79B9_7F4A_7C15;

/// The factors by which the bits of a state are spread.
const FIRST_FACTOR: u64 = 0xBF58_476D_1CE4_E5B9;

const SECOND_FACTOR: u64 = 0x94D0_49BB_1331_11EB;

/// A generator, by the state from which it goes on. The first state is the seed.
#[derive(Clone, Copy, Debug, PartialEq, Eq)]
pub struct Draws {
    pub state: u64,
}

impl Draws {
    /// The next number.
    #[inline]
    pub fn next(&mut self) -> u64
        ensures number { result ≡ draw self.new.state }
        ensures state { self.new.state ≡ next_state self.old.state }
    {
        self.state = self.state.wrapping_add(STEP);
        spread(self.state)
    }
}

// The number that a state gives, each bit of which depends on all of the state's.
#[tactic(auto, unfolding(crate::specs::Draws::draw))]
fn spread(state: u64) -> u64
    ensures { result ≡ draw state }
{
    let mixed = (state ^ (state >> 30)).wrapping_mul(FIRST_FACTOR);
    let mixed = (mixed ^ (mixed >> 27)).wrapping_mul(SECOND_FACTOR);
    mixed ^ (mixed >> 31)
}
