//! All numbers of a world, in words.
ghost use Rattle.std.specs.Prelude.{◌<◌};
ghost use Rattle.fabric.specs.Shared.{IsMessageStage};

use adfs_base::Word;
use dfs_worker::{Hand, Worker};
use fabric::PlainFabric;
use std::fmt;
use world_core::World;

/// Shows a world as its numbers.
#[derive(Clone, Copy, Drop)]
pub struct Counts<'a> {
    pub world: &'a World,
}

// The credits taken and the messages on their way, for each target.
fn put_words<W: fmt::Write>(
    f: &mut fmt::Formatter<W>,
    fabric: &PlainFabric,
    from: u32,
    stage: u32,
) -> fmt::Result
    requires from_in { from < fabric.now.shape.machines }
    requires stage { IsMessageStage fabric.now stage }
{
    for to in 0..fabric.shape().machines() {
        let used = fabric.word(Word::Used { from, stage, to });
        write!(f, " {}/{}", used, fabric.flying(from, stage, to))?;
    }
    Ok(())
}

// A machine's credits, and its inbox, for each stage.
fn put_stages<W: fmt::Write>(
    f: &mut fmt::Formatter<W>,
    fabric: &PlainFabric,
    machine: u32,
) -> fmt::Result
    requires { machine < fabric.now.shape.machines }
{
    for stage in 1..fabric.shape().stages() {
        put_words(f, fabric, machine, stage)?;
        write!(f, " inbox {}", fabric.inbox(machine, stage))?;
    }
    Ok(())
}

// All that is shared.
fn put_shared<W: fmt::Write>(f: &mut fmt::Formatter<W>, fabric: &PlainFabric) -> fmt::Result {
    write!(f, "closed {}", fabric.closed_at())?;
    for machine in 0..fabric.shape().machines() {
        let enrolled = fabric.word(Word::Enrolled(machine));
        write!(
            f,
            ", enrolled {} cursor {}",
            enrolled,
            fabric.cursor(machine)
        )?;
        write!(f, " pool {} used", fabric.pool(machine))?;
        put_stages(f, fabric, machine)?;
    }
    Ok(())
}

// What a hand holds.
fn hand(hand: &Hand) -> &'static str {
    match hand {
        Hand::Free => "free",
        Hand::Charged { .. } => "charged",
        Hand::Posted(_) => "posted",
        Hand::Popped(_) => "popped",
        Hand::Emptied { .. } => "emptied",
    }
}

// A worker: its frames, hand and rows, and whether it is enrolled.
fn put_worker<W: fmt::Write>(f: &mut fmt::Formatter<W>, worker: &Worker) -> fmt::Result {
    let frames = worker.stack().len();
    write!(f, "; frames {} hand {}", frames, hand(worker.hand()))?;
    write!(
        f,
        " rows {} enrolled {}",
        worker.rows().len(),
        worker.enrolled()
    )
}

impl<'a> fmt::Display for Counts<'a> {
    fn fmt<W: fmt::Write>(&self, f: &mut fmt::Formatter<W>) -> fmt::Result {
        put_shared(f, self.world.fabric())?;
        for worker in self.world.workers() {
            put_worker(f, worker)?;
        }
        Ok(())
    }
}
