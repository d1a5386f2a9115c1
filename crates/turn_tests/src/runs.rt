//! Whole runs of one worker over the plain tables.
ghost use Rattle.std.specs.Prelude.{◌≡◌, IfOk};
ghost use Rattle.dfs_worker.specs.Turn.{Fits};
ghost use Rattle.fabric.specs.Plain.{PlainAgrees, plain_shape};
ghost use Rattle.fabric.specs.Shared.{roots_at};
ghost use Rattle.turn_tests.specs.Fans.{fan_tree};

use crate::climb::{Tally, climb};
use crate::fan::Fan;
use crate::words::{number, setting};
use adfs_base::{NoMemory, Shape};
use bfs_budget::{Deepest, Seeded};
use dfs_worker::{Turn, Worker};
use fabric::PlainFabric;
use std::alloc::Global;

/// More turns than any of these runs has.
const MOST: u32 = 1_000_000_000;

/// A worker and the tables at the start of a run on one machine.
fn start(alloc: Global, fan: &Fan, shape: &Shape) -> Result<(Worker, PlainFabric), NoMemory>
    requires stages { fan.now.stages ≡ shape.now.stages }
    requires machines { fan.now.machines ≡ shape.now.machines }
    requires one { shape.now.machines ≡ 1 }
    ensures { IfOk result (λ p. Fits PlainAgrees plain_shape roots_at (fan_tree fan.now) p.0 p.1) }
{
    let fabric = PlainFabric::new(alloc, shape, &[fan.roots])?;
    let worker = Worker::new(alloc, 0, shape)?;
    Ok((worker, fabric))
}

/// Runs a tree on one machine, by the policy that these words name, and shows what was done.
pub fn run(alloc: Global, numbers: &str, policy: &str, shown: &mut String) -> Result<(), NoMemory> {
    let Some((fan, shape)) = setting(numbers) else {
        return Ok(());
    };
    if shape.machines() != 1 {
        return Ok(());
    }
    let (mut worker, mut fabric) = start(alloc, &fan, &shape)?;
    let mut tally = Tally::new();
    let last = match number(Some(policy)) {
        0 => climb(
            &mut worker,
            &mut fabric,
            &fan,
            &mut Deepest,
            MOST,
            &mut tally,
        ),
        seed => climb(
            &mut worker,
            &mut fabric,
            &fan,
            &mut Seeded(u64::from(seed)),
            MOST,
            &mut tally,
        ),
    };
    show(alloc, last, &tally, &worker, shown)
}

/// What came of a run.
fn show(
    alloc: Global,
    last: Turn,
    tally: &Tally,
    worker: &Worker,
    shown: &mut String,
) -> Result<(), NoMemory> {
    let rows = worker.rows().len();
    let closed = worker.closer().stage();
    let answers = tally.answers;
    let children = tally.children;
    let settled = tally.charges == tally.discharges;
    let text = format!(in alloc;
        "  {rows} rows of {answers} answers and {children} children, {closed} stages closed, credits are back: {settled}, {last:?}\n"
    )?;
    shown.push_str(text.as_str())?;
    Ok(())
}
