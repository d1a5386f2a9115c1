//! Runs of a tree: to the end in one call, and event by event.
ghost use Rattle.std.specs.Prelude.{◌≡◌};
ghost use Rattle.progress_tests.specs.Fans.{fan_tree};
ghost use Rattle.progress_tests.specs.Scenes.{IsScene};
ghost use Rattle.world_core.specs.World.{Fits};

use crate::leaves::{are_leaves, work};
use crate::tree::Fan;
use crate::words::Scene;
use adfs_base::NoMemory;
use bfs_budget::{Deepest, Policy, Seeded};
use std::alloc::Global;
use world_core::{Stepped, World};
use world_progress::{policy_event, rows_of_tree};

/// Of how many runs what was due held.
#[derive(Clone, Copy, Debug, PartialEq, Eq)]
pub struct Tally {
    pub runs: u32,
    /// Those to the end in one call whose rows were the leaves.
    pub at_once: u32,
    /// Those event by event whose rows were the leaves.
    pub by_events: u32,
    /// Those event by event that ended within the work, and had an event exactly as long as not all stages were closed.
    pub ended: u32,
}

impl Tally {
    fn new() -> Tally {
        Tally {
            runs: 0,
            at_once: 0,
            by_events: 0,
            ended: 0,
        }
    }
}

/// One more, where it holds.
fn count_if(holds: bool, number: &mut u32) {
    if holds {
        *number = number.saturating_add(1);
    }
}

/// Makes the event that the policy chooses. Whether there is a next one: it is there exactly where not all stages are closed.
fn step<P: Policy>(world: &mut World, fan: &Fan, policy: &mut P) -> Option<bool>
    requires { Fits (fan_tree fan.now) world.old.shared }
    ensures { Fits (fan_tree fan.now) world.new.shared }
{
    let finished = world.finished();
    let Some(event) = policy_event(world, fan, policy) else {
        return if finished { Some(false) } else { None };
    };
    match world.step(fan, &event) {
        Stepped::Done if !finished => Some(true),
        _ => None,
    }
}

/// Makes events to the end, at most so many. Whether the end came then.
fn walk<P: Policy>(world: &mut World, fan: &Fan, policy: &mut P, most: u64) -> bool
    requires { Fits (fan_tree fan.now) world.old.shared }
{
    for _ in 0..most {
        match step(world, fan, policy) {
            Some(true) => {}
            Some(false) => return true,
            None => return false,
        }
    }
    match step(world, fan, policy) {
        Some(more) => !more,
        None => false,
    }
}

/// Runs a tree event by event.
fn run_by_events<P: Policy>(
    alloc: Global,
    scene: &Scene,
    policy: &mut P,
    tally: &mut Tally,
) -> Result<(), NoMemory>
    requires { IsScene scene.now }
{
    let fan = &scene.fan;
    let mut world = World::new(alloc, fan, &scene.shape)?;
    let ended = walk(&mut world, fan, policy, work(fan, scene.shape.workers()));
    count_if(ended, &mut tally.ended);
    let rows = world.into_rows()?;
    count_if(are_leaves(alloc, fan, &rows)?, &mut tally.by_events);
    Ok(())
}

/// Runs a tree by a policy, in both ways. The second policy begins as the first.
fn run_both<P: Policy>(
    alloc: Global,
    scene: &Scene,
    first: &mut P,
    second: &mut P,
    tally: &mut Tally,
) -> Result<(), NoMemory>
    requires { IsScene scene.now }
{
    count_if(true, &mut tally.runs);
    let rows = rows_of_tree(alloc, &scene.fan, &scene.shape, first)?;
    count_if(are_leaves(alloc, &scene.fan, &rows)?, &mut tally.at_once);
    run_by_events(alloc, scene, second, tally)
}

/// Runs a tree from the first attempts, and by each seed.
pub fn run(alloc: Global, scene: &Scene) -> Result<Tally, NoMemory>
    requires { IsScene scene.now }
{
    let mut tally = Tally::new();
    run_both(alloc, scene, &mut Deepest, &mut Deepest, &mut tally)?;
    for seed in 0..scene.seeds {
        let number = u64::from(seed);
        run_both(
            alloc,
            scene,
            &mut Seeded(number),
            &mut Seeded(number),
            &mut tally,
        )?;
    }
    Ok(tally)
}
