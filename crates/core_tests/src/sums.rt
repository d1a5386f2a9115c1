//! The sums of a world, added up again from all that stands in it.
ghost use Rattle.std.specs.Prelude.{◌≡◌, ◌<◌, ◌≤◌};
ghost use Rattle.fabric.specs.Shared.{IsUnit, IsMessageStage};

use adfs_base::Word;
use dfs_worker::{Hand, Worker};
use fabric::PlainFabric;
use match_context::{Frame, Message, Rest};
use std::fmt;
use world_core::{Gauge, World};

/// Sums over a world, in the order in which they are shown.
#[derive(Clone, Copy, Debug)]
pub struct Sums {
    /// The credits taken, the messages on their way, and those of these that are in inboxes.
    used: u64,
    flying: u64,
    queued: u64,
    /// The buffers in pools, the roots claimed, and the rows found.
    pooled: u64,
    claimed: u64,
    rows: u64,
    /// Buffers outside the pools, and contexts.
    gauge: Gauge,
    closed: u32,
    /// How many credits, messages on their way and homes of buffers don't add up.
    wrong: u64,
}

impl fmt::Display for Sums {
    fn fmt<W: fmt::Write>(&self, f: &mut fmt::Formatter<W>) -> fmt::Result {
        write!(f, "{} {} {} ", self.used, self.flying, self.queued)?;
        write!(f, "{} {} {} ", self.pooled, self.claimed, self.rows)?;
        write!(f, "{} {} ", self.gauge.buffers, self.gauge.contexts)?;
        write!(f, "{} {}", self.closed, self.wrong)
    }
}

// 1 where the test holds.
fn one(test: bool) -> u64 {
    if test { 1 } else { 0 }
}

// The message under a frame.
fn message_of(frame: &Frame) -> Option<&Message> {
    match &frame.rest {
        Rest::Items { message, .. } => Some(message),
        _ => None,
    }
}

// The message in a hand.
fn in_hand(hand: &Hand) -> Option<&Message> {
    match hand {
        Hand::Posted(message) => Some(message),
        Hand::Popped(message) => Some(message),
        _ => None,
    }
}

// ---- credits

// The message frames of that sender and stage.
fn framed(frames: &[Frame], from: u32, stage: u32) -> u64 {
    let mut count = 0u64;
    for frame in frames {
        if let Some(message) = message_of(frame) {
            count = count.saturating_add(one(message.from == from && message.stage == stage));
        }
    }
    count
}

// Whether the hand has a credit of the word, on a worker of that machine.
fn credit_in_hand(hand: &Hand, machine: u32, from: u32, stage: u32, to: u32) -> bool {
    match hand {
        Hand::Charged { stage: k, to: n } => machine == from && *k == stage && *n == to,
        Hand::Emptied { from: m, stage: k } => machine == to && *m == from && *k == stage,
        _ => false,
    }
}

// The credits of the word that a worker has, beside those of messages on their way.
fn credits_of(worker: &Worker, from: u32, stage: u32, to: u32) -> u64 {
    let machine = worker.machine();
    let open = one(machine == from && worker.is_open(stage, to));
    let hand = one(credit_in_hand(worker.hand(), machine, from, stage, to));
    let frames = if machine == to {
        framed(worker.stack(), from, stage)
    } else {
        0
    };
    frames.saturating_add(open).saturating_add(hand)
}

// The same of all workers.
fn credits(workers: &[Worker], from: u32, stage: u32, to: u32) -> u64 {
    let mut sum = 0u64;
    for worker in workers {
        sum = sum.saturating_add(credits_of(worker, from, stage, to));
    }
    sum
}

// The messages of the word in hands.
fn handed(workers: &[Worker], from: u32, stage: u32, to: u32) -> u64 {
    let mut sum = 0u64;
    for worker in workers {
        if let Some(message) = in_hand(worker.hand()) {
            let same = message.from == from && message.stage == stage && message.to == to;
            sum = sum.saturating_add(one(same));
        }
    }
    sum
}

// The messages of that sender in an inbox.
fn queued_from(fabric: &PlainFabric, from: u32, stage: u32, to: u32) -> u64
    requires to_in { to < fabric.now.shape.machines }
    requires stage { IsMessageStage fabric.now stage }
{
    let mut sum = 0u64;
    for place in 0..fabric.inbox(to, stage) {
        let message = fabric.message(to, stage, place);
        sum = sum.saturating_add(one(
            message.from == from && message.stage == stage && message.to == to,
        ));
    }
    sum
}

// ---- words

// What the words of a sender and stage come to: credits taken, messages on their way and in inboxes, and how many of
// the sums don't hold.
#[derive(Clone, Copy)]
struct Words {
    used: u64,
    flying: u64,
    queued: u64,
    wrong: u64,
}

impl Words {
    fn none() -> Words {
        Words {
            used: 0,
            flying: 0,
            queued: 0,
            wrong: 0,
        }
    }

    fn with(self, other: Words) -> Words {
        Words {
            used: self.used.saturating_add(other.used),
            flying: self.flying.saturating_add(other.flying),
            queued: self.queued.saturating_add(other.queued),
            wrong: self.wrong.saturating_add(other.wrong),
        }
    }
}

// One word.
fn word(world: &World, from: u32, stage: u32, to: u32) -> Words
    requires { IsUnit world.now.shared from stage to }
{
    let fabric = world.fabric();
    let used = u64::from(fabric.word(Word::Used { from, stage, to }));
    let flying = u64::from(fabric.flying(from, stage, to));
    let queued = queued_from(fabric, from, stage, to);
    let held = credits(world.workers(), from, stage, to);
    let moving = queued.saturating_add(handed(world.workers(), from, stage, to));
    let wrong = one(used != flying.saturating_add(held)).saturating_add(one(flying != moving));
    Words {
        used,
        flying,
        queued,
        wrong,
    }
}

// The words of a sender and stage.
fn words_of_stage(world: &World, from: u32, stage: u32) -> Words
    requires from_in { from < world.now.shared.shape.machines }
    requires stage { IsMessageStage world.now.shared stage }
{
    let mut words = Words::none();
    for to in 0..world.fabric().shape().machines() {
        words = words.with(word(world, from, stage, to));
    }
    words
}

// The words of a sender.
fn words_of_machine(world: &World, from: u32) -> Words
    requires { from < world.now.shared.shape.machines }
{
    let mut words = Words::none();
    for stage in 1..world.fabric().shape().stages() {
        words = words.with(words_of_stage(world, from, stage));
    }
    words
}

// All words.
fn all_words(world: &World) -> Words {
    let mut words = Words::none();
    for from in 0..world.fabric().shape().machines() {
        words = words.with(words_of_machine(world, from));
    }
    words
}

// ---- buffers

// The buffers of a home under message frames.
fn framed_of(frames: &[Frame], home: u32) -> u64 {
    let mut count = 0u64;
    for frame in frames {
        if let Some(message) = message_of(frame) {
            count = count.saturating_add(one(message.items.home() == home));
        }
    }
    count
}

// Those that a worker has open for a stage.
fn open_of(worker: &Worker, home: u32, stage: u32) -> u64 {
    let mut count = 0u64;
    for to in 0..worker.machines() {
        if let Some(buffer) = worker.buffer(stage, to) {
            count = count.saturating_add(one(buffer.home() == home));
        }
    }
    count
}

// All that a worker has.
fn buffers_of(worker: &Worker, home: u32) -> u64 {
    let mut count = framed_of(worker.stack(), home);
    if let Some(message) = in_hand(worker.hand()) {
        count = count.saturating_add(one(message.items.home() == home));
    }
    for stage in 0..worker.stages() {
        count = count.saturating_add(open_of(worker, home, stage));
    }
    count
}

// Those in an inbox.
fn queued_of(fabric: &PlainFabric, machine: u32, stage: u32, home: u32) -> u64
    requires machine_in { machine < fabric.now.shape.machines }
    requires stage { IsMessageStage fabric.now stage }
{
    let mut sum = 0u64;
    for place in 0..fabric.inbox(machine, stage) {
        let message = fabric.message(machine, stage, place);
        sum = sum.saturating_add(one(message.items.home() == home));
    }
    sum
}

// Those in the inboxes of a machine.
fn queued_at(fabric: &PlainFabric, machine: u32, home: u32) -> u64
    requires { machine < fabric.now.shape.machines }
{
    let mut sum = 0u64;
    for stage in 1..fabric.shape().stages() {
        sum = sum.saturating_add(queued_of(fabric, machine, stage, home));
    }
    sum
}

// All of a home, in its pool and outside.
fn of_home(world: &World, home: u32) -> u64
    requires { home < world.now.shared.shape.machines }
{
    let fabric = world.fabric();
    let mut sum = fabric.pool(home);
    for machine in 0..fabric.shape().machines() {
        sum = sum.saturating_add(queued_at(fabric, machine, home));
    }
    for worker in world.workers() {
        sum = sum.saturating_add(buffers_of(worker, home));
    }
    sum
}

// ---- all

// How many homes have lost a buffer, or have one too many; the buffers in pools; and the roots that are claimed.
fn homes(world: &World) -> (u64, u64, u64) {
    let fabric = world.fabric();
    let mut wrong = 0u64;
    let mut pooled = 0u64;
    let mut claimed = 0u64;
    for home in 0..fabric.shape().machines() {
        wrong = wrong.saturating_add(one(of_home(world, home) != fabric.shape().pool()));
        pooled = pooled.saturating_add(fabric.pool(home));
        claimed = claimed.saturating_add(fabric.cursor(home));
    }
    (wrong, pooled, claimed)
}

// The rows of all workers.
fn rows(workers: &[Worker]) -> u64 {
    let mut sum = 0u64;
    for worker in workers {
        sum = sum.saturating_add(worker.rows().len() as u64);
    }
    sum
}

/// All sums of a world.
pub fn sum_up(world: &World) -> Sums {
    let words = all_words(world);
    let (wrong, pooled, claimed) = homes(world);
    Sums {
        used: words.used,
        flying: words.flying,
        queued: words.queued,
        pooled,
        claimed,
        rows: rows(world.workers()),
        gauge: world.gauge(),
        closed: world.fabric().closed_at(),
        wrong: words.wrong.saturating_add(wrong),
    }
}
