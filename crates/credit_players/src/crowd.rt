//! Players in threads of their own.
ghost use Rattle.std.specs.Prelude.{◌≡◌, ◌<◌, ◌*◌, All, IfOk, length, map};
ghost use Rattle.stage_credits.specs.Seats.{AreFreshSeats};
ghost use Rattle.credit_players.specs.Players.{IsBuffer, IsReady, IsSmallTable, SitsAt, player_of};

use crate::gauges::Gauges;
use crate::player::{Buffer, Claims, Player};
use adfs_base::{Charge, NoMemory, Pick};
use stage_credits::{CreditSeat, Credits};
use std::alloc::Global;
use std::thread::{self, Threads};

/// How many tries a player makes.
const TRIES: u32 = 10_000;

/// A player for each seat.
pub fn players(
    alloc: Global,
    credits: &Credits,
    seats: Vec<CreditSeat>,
) -> Result<Vec<Player>, NoMemory>
    requires fresh { AreFreshSeats credits.now seats.items }
    requires workers { 0 < credits.now.setup.shape.workers }
    ensures ready { IfOk result (λ players. All (IsReady credits.now) players.items) }
    ensures count { IfOk result (λ players. length players.items ≡ credits.now.setup.shape.machines * credits.now.setup.shape.workers) }
{
    let _ = credits;
    let players = seated(alloc, seats)?;
    Ok(players)
}

fn seated(alloc: Global, seats: Vec<CreditSeat>) -> Result<Vec<Player>, NoMemory>
    ensures { IfOk result (λ players. players.items ≡ map player_of seats.items) }
{
    let players = seats
        .into_iter()
        .map(|seat| Player {
            seat,
            in_hand: None,
            in_work: None,
            claims: Claims::new(),
        })
        .collect(alloc)?;
    Ok(players)
}

/// The next of a row of numbers that look like chance.
fn next_random(random: u64) -> u64 {
    random
        .wrapping_mul(6_364_136_223_846_793_005)
        .wrapping_add(1_442_695_040_888_963_407)
}

/// One of the four kinds of buffer there are with two machines and the stages 1 and 2.
fn any_buffer(credits: &Credits, random: u64) -> Buffer
    requires { IsSmallTable credits.now }
    ensures { IsBuffer credits.now.setup result }
{
    let _ = credits;
    Buffer {
        stage: 1 + (random >> 40) as u32 % 2,
        machine: (random >> 50) as u32 % 2,
    }
}

impl Player {
    /// One try of a kind that chance picks.
    fn turn(&mut self, credits: &Credits, gauges: &Gauges, random: u64)
        requires ready { IsReady credits.now self.old }
        requires table { IsSmallTable credits.now }
        ensures { IsReady credits.now self.new }
    {
        let buffer = any_buffer(credits, random);
        match (random >> 60) % 4 {
            0 => self.try_charge(credits, gauges, buffer),
            1 => self.try_post(credits, gauges),
            2 => self.try_pick(credits, gauges, buffer),
            _ => self.try_discharge(credits, gauges),
        }
    }

    fn try_charge(&mut self, credits: &Credits, gauges: &Gauges, buffer: Buffer)
        requires ready { IsReady credits.now self.old }
        requires buffer { IsBuffer credits.now.setup buffer }
        ensures { IsReady credits.now self.new }
    {
        if self.in_hand.is_some() {
            return;
        }
        match self.charge(credits, buffer) {
            Charge::Charged => gauges.charged(self.seat.machine(), buffer),
            Charge::Full(seen) => gauges.refused(seen),
            Charge::Moved(_, _) => {}
        }
    }

    fn try_post(&mut self, credits: &Credits, gauges: &Gauges)
        requires { IsReady credits.now self.old }
        ensures { IsReady credits.now self.new }
    {
        if let Some(buffer) = self.in_hand {
            gauges.posts(self.seat.machine(), buffer);
            self.post(credits);
        }
    }

    fn try_pick(&mut self, credits: &Credits, gauges: &Gauges, buffer: Buffer)
        requires ready { IsReady credits.now self.old }
        requires buffer { IsBuffer credits.now.setup buffer }
        ensures { IsReady credits.now self.new }
    {
        if self.in_work.is_some() {
            return;
        }
        if let Pick::Picked = self.pick(credits, buffer) {
            gauges.picked(buffer, self.seat.machine());
        }
    }

    fn try_discharge(&mut self, credits: &Credits, gauges: &Gauges)
        requires { IsReady credits.now self.old }
        ensures { IsReady credits.now self.new }
    {
        if let Some(buffer) = self.in_work {
            gauges.discharges(buffer, self.seat.machine());
            self.discharge(credits);
        }
    }

    /// Ten thousand tries.
    fn play(&mut self, credits: &Credits, gauges: &Gauges, seed: u64)
        requires ready { IsReady credits.now self.old }
        requires table { IsSmallTable credits.now }
        ensures { IsReady credits.now self.new }
    {
        let mut random = seed;
        for _ in 0..TRIES {
            random = next_random(random);
            self.turn(credits, gauges, random);
        }
    }

    /// Gives back all that is in hand, in work or under way to the player's machine.
    fn clear(&mut self, credits: &Credits, gauges: &Gauges)
        requires ready { IsReady credits.now self.old }
        requires table { IsSmallTable credits.now }
        ensures { IsReady credits.now self.new }
    {
        self.try_post(credits, gauges);
        self.try_discharge(credits, gauges);
        for random in 0u64..1_000 {
            let buffer = any_buffer(credits, next_random(random));
            self.try_pick(credits, gauges, buffer);
            self.try_discharge(credits, gauges);
        }
    }

    /// Charges and posts until the limit is met.
    fn fill(&mut self, credits: &Credits, gauges: &Gauges, buffer: Buffer)
        requires ready { IsReady credits.now self.old }
        requires buffer { IsBuffer credits.now.setup buffer }
        ensures { IsReady credits.now self.new }
    {
        for _ in 0..20u32 {
            self.try_post(credits, gauges);
            if self.in_hand.is_none() {
                match self.charge(credits, buffer) {
                    Charge::Charged => gauges.fills(),
                    Charge::Full(seen) => gauges.refused(seen),
                    Charge::Moved(_, _) => {}
                }
            }
        }
    }

    /// Charges all credits to each stage of each machine.
    fn fill_each(&mut self, credits: &Credits, gauges: &Gauges)
        requires ready { IsReady credits.now self.old }
        requires table { IsSmallTable credits.now }
        ensures { IsReady credits.now self.new }
    {
        for kind in 0..4u32 {
            let buffer = Buffer {
                stage: 1 + kind / 2,
                machine: kind % 2,
            };
            self.fill(credits, gauges, buffer);
        }
    }
}

/// All players play at the same time, each in a thread of its own.
pub fn play_all<R: Threads + Sync>(
    rt: &R,
    credits: &Credits,
    gauges: &Gauges,
    players: &mut [Player],
    seed: u64,
)
    requires ready { All (IsReady credits.now) players.old }
    requires table { IsSmallTable credits.now }
    ensures { All (IsReady credits.now) players.new }
{
    thread::for_each_mut(
        rt,
        players,
        4,
        &|i: usize, player: &mut Player| -> ()
            requires { IsReady credits.now player.now × IsSmallTable credits.now }
            ensures { IsReady credits.entry.now player.exit.now }
        { player.play(credits, gauges, seed.wrapping_add(i as u64)) },
    );
}

/// All players claim at the same time until no root is left, and retire.
pub fn claim_all<R: Threads + Sync>(rt: &R, credits: &Credits, players: &mut [Player])
    requires { All (IsReady credits.now) players.old }
    ensures { All (SitsAt credits.now) players.new }
{
    thread::for_each_mut(
        rt,
        players,
        4,
        &|_i: usize, player: &mut Player| -> ()
            requires { IsReady credits.now player.now }
            ensures { SitsAt credits.entry.now player.exit.now }
        { player.claim_all(credits) },
    );
}

/// All players give back at the same time what they have and what is under way to their machine.
pub fn clear_all<R: Threads + Sync>(
    rt: &R,
    credits: &Credits,
    gauges: &Gauges,
    players: &mut [Player],
)
    requires ready { All (IsReady credits.now) players.old }
    requires table { IsSmallTable credits.now }
    ensures { All (IsReady credits.now) players.new }
{
    thread::for_each_mut(
        rt,
        players,
        4,
        &|_i: usize, player: &mut Player| -> ()
            requires { IsReady credits.now player.now × IsSmallTable credits.now }
            ensures { IsReady credits.entry.now player.exit.now }
        { player.clear(credits, gauges) },
    );
}

/// The first of each machine's two players charges all credits of the machine.
pub fn fill_all<R: Threads + Sync>(
    rt: &R,
    credits: &Credits,
    gauges: &Gauges,
    players: &mut [Player],
)
    requires ready { All (IsReady credits.now) players.old }
    requires table { IsSmallTable credits.now }
    ensures { All (IsReady credits.now) players.new }
{
    thread::for_each_mut(
        rt,
        players,
        4,
        &|i: usize, player: &mut Player| -> ()
            requires { IsReady credits.now player.now × IsSmallTable credits.now }
            ensures { IsReady credits.entry.now player.exit.now }
        {
            if i % 2 == 0 {
                player.fill_each(credits, gauges);
            }
        },
    );
}
