//! Whole runs of players over counters of their own. Each gives none where its shape is none.
ghost use Rattle.std.specs.Prelude.{◌≡◌, ◌<◌, ◌*◌, IfOk, IfSome, None, All, length};
ghost use Rattle.stage_credits.specs.Layout.{roots_of};
ghost use Rattle.stage_credits.specs.Seats.{AreAllSeats, AreFreshSeats};
ghost use Rattle.credit_players.specs.Players.{IsAtStart, IsBuffer, IsReady, IsSmallTable, IsTiny, SitsAt};

use crate::closing::{Answers, close_all};
use crate::crowd::{claim_all, clear_all, fill_all, play_all, players};
use crate::gauges::Gauges;
use crate::player::{Buffer, Player};
use adfs_base::{Charge, NoMemory, Pick, Shape};
use stage_credits::{CreditSeat, Credits};
use std::alloc::Global;
use std::thread::Threads;

/// What four players leave: the credits and messages that are left by the gauges, the faults that these saw, and how many
/// credits could be charged afterwards.
#[derive(Clone, Copy, Debug, PartialEq, Eq)]
pub struct Outcome {
    pub left: u64,
    pub faults: u64,
    pub filled: u64,
}

/// Two machines of two workers each, the stages 0, 1 and 2, and as many credits everywhere.
fn small_table(alloc: Global, limit: u32) -> Result<Option<(Credits, Vec<Player>)>, NoMemory>
    ensures { IfOk result (λ made. IfSome made (λ m. IsSmallTable m.0 × All (IsReady m.0) m.1.items)) }
{
    let Some(shape) = Shape::new(2, 2, 3, limit, limit, 1) else {
        return Ok(None);
    };
    let (credits, seats) = Credits::open(alloc, &shape, &[0, 0])?;
    let players = players(alloc, &credits, seats)?;
    Ok(Some((credits, players)))
}

/// Four players in threads of their own charge, post, pick and discharge by chance, ten thousand times each. Then all is
/// given back, and as many credits as there are can be charged.
pub fn played_by_four<R: Threads + Sync>(
    rt: &R,
    alloc: Global,
    limit: u32,
) -> Result<Option<Outcome>, NoMemory> {
    let Some((credits, mut players)) = small_table(alloc, limit)? else {
        return Ok(None);
    };
    let gauges = Gauges::new(u64::from(limit));
    play_all(
        rt,
        &credits,
        &gauges,
        players.as_mut_slice(),
        u64::from(limit),
    );
    clear_all(rt, &credits, &gauges, players.as_mut_slice());
    clear_all(rt, &credits, &gauges, players.as_mut_slice());
    let left = gauges.left();
    fill_all(rt, &credits, &gauges, players.as_mut_slice());
    Ok(Some(Outcome {
        left,
        faults: gauges.faults(),
        filled: gauges.filled(),
    }))
}

/// What one worker is answered that charges and posts up to the limit, charges once more, picks and discharges one message,
/// and charges again.
#[derive(Clone, Copy, Debug, PartialEq, Eq)]
pub struct Round {
    pub charged: u32,
    pub full: Charge,
    pub picked: Pick,
    pub again: Charge,
}

pub fn filled_by_one(alloc: Global, limit: u32) -> Result<Option<Round>, NoMemory> {
    let Some(shape) = Shape::new(1, 1, 2, 1, limit, 1) else {
        return Ok(None);
    };
    let (credits, seats) = Credits::open(alloc, &shape, &[0])?;
    let mut players = players(alloc, &credits, seats)?;
    let Some(player) = players.first_mut() else {
        return Ok(None);
    };
    Ok(Some(fills(&credits, player, limit)))
}

fn fills(credits: &Credits, player: &mut Player, limit: u32) -> Round
    requires ready { IsReady credits.now player.old }
    requires buffer { IsBuffer credits.now.setup (record { stage = 1; machine = 0 }) }
{
    let buffer = Buffer {
        stage: 1,
        machine: 0,
    };
    let charged = charge_often(credits, player, buffer, limit);
    let full = player.charge(credits, buffer);
    player.discharge(credits);
    let picked = player.pick(credits, buffer);
    player.discharge(credits);
    player.post(credits);
    Round {
        charged,
        full,
        picked,
        again: player.charge(credits, buffer),
    }
}

/// Charges and posts so often, and says how often that went well.
fn charge_often(credits: &Credits, player: &mut Player, buffer: Buffer, tries: u32) -> u32
    requires ready { IsReady credits.now player.old }
    requires buffer { IsBuffer credits.now.setup buffer }
    ensures ready { IsReady credits.now player.new }
    ensures free { player.new.in_hand ≡ None }
{
    let mut charged = 0;
    player.post(credits);
    for tried in 0..tries {
        if let Charge::Charged = player.charge(credits, buffer) {
            charged = tried + 1;
        }
        player.post(credits);
    }
    charged
}

/// The chunks that two workers claimed in threads of their own, by their first roots, and the cursor in the end.
pub fn claimed_by_two<R: Threads + Sync>(
    rt: &R,
    alloc: Global,
    roots: u64,
) -> Result<Option<(Vec<(u64, u64)>, u64)>, NoMemory> {
    let Some(shape) = Shape::new(1, 2, 1, 1, 0, 1) else {
        return Ok(None);
    };
    let (credits, seats) = Credits::open(alloc, &shape, &[roots])?;
    let mut players = players(alloc, &credits, seats)?;
    claim_all(rt, &credits, players.as_mut_slice());
    let chunks = chunks_of(alloc, players.as_slice())?;
    let seats = seats_of(alloc, &credits, players)?;
    let cursors = credits.settle(seats);
    Ok(Some((chunks, cursors[0])))
}

fn chunks_of(alloc: Global, players: &[Player]) -> Result<Vec<(u64, u64)>, NoMemory> {
    let mut chunks = Vec::new(alloc);
    for player in players {
        let claims = &player.claims;
        for chunk in claims.chunks.iter().take(claims.count) {
            chunks.push(*chunk)?;
        }
    }
    chunks.sort()?;
    Ok(chunks)
}

fn seats_of(
    alloc: Global,
    credits: &Credits,
    players: Vec<Player>,
) -> Result<Vec<CreditSeat>, NoMemory>
    requires sit { All (SitsAt credits.now) players.items }
    requires count { length players.items ≡ credits.now.setup.shape.machines * credits.now.setup.shape.workers }
    ensures { IfOk result (λ seats. AreAllSeats credits.now seats.items) }
{
    let _ = credits;
    let seats = players
        .into_iter()
        .map(|player| player.seat)
        .collect(alloc)?;
    Ok(seats)
}

/// What two workers of one machine without roots are answered that retire, mark and close.
pub fn closed_by_two(alloc: Global) -> Result<Option<Answers>, NoMemory> {
    let Some(shape) = Shape::new(1, 2, 2, 1, 1, 1) else {
        return Ok(None);
    };
    let (credits, seats) = Credits::open(alloc, &shape, &[0])?;
    let mut seats = at_start(&credits, seats);
    let Some(mut second) = last_seat(&credits, &mut seats) else {
        return Ok(None);
    };
    let Some(mut first) = last_seat(&credits, &mut seats) else {
        return Ok(None);
    };
    Ok(Some(close_all(&credits, &mut first, &mut second)))
}

/// The same seats.
fn at_start(credits: &Credits, seats: Vec<CreditSeat>) -> Vec<CreditSeat>
    requires fresh { AreFreshSeats credits.now seats.items }
    requires tiny { IsTiny credits.now }
    requires workers { 0 < credits.now.setup.shape.workers }
    requires roots { roots_of credits.now.setup 0 ≡ 0 }
    ensures { All (IsAtStart credits.now) result.items }
{
    let _ = credits;
    seats
}

fn last_seat(credits: &Credits, seats: &mut Vec<CreditSeat>) -> Option<CreditSeat>
    requires { All (IsAtStart credits.now) seats.old.items }
    ensures rest { All (IsAtStart credits.now) seats.new.items }
    ensures last { IfSome result (IsAtStart credits.now) }
{
    let _ = credits;
    seats.pop()
}
