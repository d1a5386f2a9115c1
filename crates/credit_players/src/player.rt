//! A worker as the tests have it.
ghost use Rattle.std.specs.Prelude.{◌≡◌, None, replicate};
ghost use Rattle.credit_players.specs.Players.{IsBuffer, IsReady, SitsAt};

use adfs_base::{Charge, Claimed, Pick};
use stage_credits::{CreditSeat, Credits};

/// A stage and a machine: where an open buffer goes, or where a message in work comes from.
#[derive(Clone, Copy, Debug, PartialEq, Eq)]
pub struct Buffer {
    pub stage: u32,
    pub machine: u32,
}

/// A worker that holds at most one credit of an open buffer, and one of a message in work.
#[derive(Drop)]
pub struct Player {
    pub seat: CreditSeat,
    pub in_hand: Option<Buffer>,
    pub in_work: Option<Buffer>,
    pub claims: Claims,
}

/// The chunks that a player claimed, as many as there is room for.
#[derive(Clone, Copy, Debug)]
pub struct Claims {
    pub chunks: [(u64, u64); 32],
    pub count: usize,
}

impl Claims {
    pub fn new() -> Claims
        ensures { result ≡ record { chunks = replicate 32 (0, 0); count = 0 } }
    {
        Claims {
            chunks: [(0, 0); 32],
            count: 0,
        }
    }

    fn keep(&mut self, first: u64, end: u64) {
        if let Some(chunk) = self.chunks.get_mut(self.count) {
            *chunk = (first, end);
            self.count += 1;
        }
    }
}

impl Player {
    /// Claims roots until the end was seen, and retires.
    pub fn claim_all(&mut self, credits: &Credits)
        requires { IsReady credits.now self.old }
        ensures { SitsAt credits.now self.new }
    {
        for _ in 0..10_000u32 {
            match credits.claim(&mut self.seat) {
                Claimed::Chunk(first, end) => self.claims.keep(first, end),
                Claimed::Exhausted(_) => {
                    credits.retire(&mut self.seat);
                    return;
                }
                Claimed::Moved(_, _) => {}
            }
        }
    }

    /// A try to charge for a buffer, which nothing is in hand for.
    pub fn charge(&mut self, credits: &Credits, buffer: Buffer) -> Charge
        requires ready { IsReady credits.now self.old }
        requires free { self.old.in_hand ≡ None }
        requires buffer { IsBuffer credits.now.setup buffer }
        ensures { IsReady credits.now self.new }
    {
        let answer = credits.charge(&mut self.seat, buffer.stage, buffer.machine);
        match answer {
            Charge::Charged => self.in_hand = Some(buffer),
            Charge::Full(_) | Charge::Moved(_, _) => {}
        }
        answer
    }

    /// Posts the buffer in hand, and says which it was.
    pub fn post(&mut self, credits: &Credits) -> Option<Buffer>
        requires { IsReady credits.now self.old }
        ensures ready { IsReady credits.now self.new }
        ensures free { self.new.in_hand ≡ None }
    {
        let buffer = self.in_hand?;
        credits.post(&mut self.seat, buffer.stage, buffer.machine);
        self.in_hand = None;
        Some(buffer)
    }

    /// A try to pick a message of this kind, where none is in work.
    pub fn pick(&mut self, credits: &Credits, buffer: Buffer) -> Pick
        requires ready { IsReady credits.now self.old }
        requires free { self.old.in_work ≡ None }
        requires buffer { IsBuffer credits.now.setup buffer }
        ensures { IsReady credits.now self.new }
    {
        let answer = credits.pick(&mut self.seat, buffer.machine, buffer.stage);
        match answer {
            Pick::Picked => self.in_work = Some(buffer),
            Pick::NoneFlying(_) | Pick::Moved(_, _) => {}
        }
        answer
    }

    /// Discharges the message in work, and says which it was.
    pub fn discharge(&mut self, credits: &Credits) -> Option<Buffer>
        requires { IsReady credits.now self.old }
        ensures ready { IsReady credits.now self.new }
        ensures free { self.new.in_work ≡ None }
    {
        let buffer = self.in_work?;
        credits.discharge(&mut self.seat, buffer.machine, buffer.stage);
        self.in_work = None;
        Some(buffer)
    }
}
