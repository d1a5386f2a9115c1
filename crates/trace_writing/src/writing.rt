//! The lines of a run.
ghost use Rattle.std.specs.Prelude.{◌≡◌, ◌++◌, ◌<◌, ◌∷◌, [], IfOk, OnOk, length};
ghost use Rattle.match_context.specs.Bags.{SameBag};
ghost use Rattle.match_context.specs.Leaves.{tree_leaves};
ghost use Rattle.trace_text.specs.EventLines.{IsEvent, event_line};
ghost use Rattle.world_core.specs.Owed.{owed};
ghost use Rattle.world_core.specs.Sound.{Sound};
ghost use Rattle.world_core.specs.World.{Fits, start_world};
ghost use Rattle.trace_writing.specs.Written.{IsWritten, WritesEvents};

use crate::turns::Turns;
use adfs_base::{NoMemory, Shape};
use bfs_budget::Policy;
use dfs_worker::Event;
use match_context::{Context, Expand};
use std::alloc::Global;
use trace_text::put_event;
use world_core::{World, worker_of};
use world_progress::next_event;

// The event's line, with its line feed.
fn put_line(event: &Event, out: &mut Vec<u8>) -> Result<(), NoMemory>
    ensures line { OnOk result (out.new.items ≡ out.old.items ++ (event_line event.now ++ 10 ∷ [])) }
    ensures numbers { OnOk result (IsEvent event.now) }
{
    put_event(event, out)?;
    out.push(b'\n')?;
    Ok(())
}

fn worker_count(world: &World) -> u32
    ensures count { result ≡ length world.now.workers }
    ensures some { 0 < result }
{
    world.workers().len() as u32
}

// Makes events until all stages are closed, and writes the line of each.
fn write_events<X: Expand, P: Policy>(
    world: &mut World,
    x: &X,
    policy: &mut P,
    out: &mut Vec<u8>,
) -> Result<(), NoMemory>
    requires { Fits (X.tree x.now) world.old.shared }
    ensures written { OnOk result (WritesEvents (X.tree x.now) world.old out.old.items world.new out.new.items) }
    ensures owed { OnOk result ((row : _) → owed row (X.tree x.now) world.old ≡ owed row (X.tree x.now) world.new) }
    ensures sound { OnOk result (Sound world.new) }
{
    let mut turns = Turns::new();
    'events: loop {
        let workers = worker_count(world);
        let first = turns.first(policy, workers);
        let Some(event) = next_event(world, policy, first) else {
            return Ok(());
        };
        turns.took(worker_of(&event));
        put_line(&event, out)?;
        world.make(x, &event)?;
    }
}

/// Makes a run from the start to its end, and writes it after what is there: a line for each event, and the line
/// `finished`. The rows are those of its end.
///
/// After `NoMemory` a front of the text may stand there, so what was written is of no use.
pub fn write_run<X: Expand, P: Policy>(
    alloc: Global,
    x: &X,
    shape: &Shape,
    policy: &mut P,
    out: &mut Vec<u8>,
) -> Result<Vec<Context>, NoMemory>
    requires stages { shape.now.stages ≡ (X.tree x.now).stages }
    requires machines { shape.now.machines ≡ (X.tree x.now).machines }
    ensures written { IfOk result (λ rows. IsWritten (X.tree x.now) (start_world shape.now (X.tree x.now)) out.old.items out.new.items rows.items) }
    ensures leaves { IfOk result (λ rows. SameBag rows.items (tree_leaves (X.tree x.now))) }
{
    let mut world = World::new(alloc, x, shape)?;
    write_events(&mut world, x, policy, out)?;
    out.extend_from_slice(b"finished\n")?;
    world.into_rows()
}
