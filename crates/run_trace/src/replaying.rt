//! The events of a text, made in turn.
ghost use Rattle.std.specs.Prelude.{◌≡◌, ◌≤◌, ◌<◌, ◌+◌, ◌^◌, IfErr, IfOk, OnOk, bytes_eq, codes, drop, length};
ghost use Rattle.std.specs.Str.Lines.{lines};
ghost use Rattle.trace_text.specs.Faults.{Gives, GivesFault};
ghost use Rattle.trace_text.specs.Reading.{event_of};
ghost use Rattle.world_core.specs.Gauge.{gauge_of};
ghost use Rattle.world_core.specs.Rows.{without_rows_at};
ghost use Rattle.world_core.specs.World.{Fits, start_world, world_of};
ghost use Rattle.run_trace.specs.Replay.{Taken, event_on, finish, greater, line_number, replayed, with_event};
ghost use Rattle.run_trace.specs.Rowless.{IsMadeBy, IsRowless};
ghost use Rattle.run_trace.specs.Runs.{begun};

use crate::gauging::step_counted;
use adfs_base::{FILE_BYTES, Shape};
use match_context::Expand;
use std::alloc::Global;
use text_lines::Lines;
use trace_text::{ReplayFault, read_event};
use world_core::{Gauge, Stepped, World, worker_of};

/// How a run went that was taken again.
#[derive(Clone, Copy, Debug, PartialEq, Eq)]
pub struct Replayed {
    /// The number of its events.
    pub events: u64,
    /// The most that stood outside the pools at any moment, the start among them, each number by itself.
    pub most: Gauge,
}

fn greater(a: Gauge, b: Gauge) -> Gauge
    ensures { result ≡ greater a b }
{
    Gauge {
        buffers: a.buffers.max(b.buffers),
        contexts: a.contexts.max(b.contexts),
    }
}

// The number of the line that is read after so many events.
fn line_number(so_far: &Replayed) -> u32
    requires { so_far.now.events + 6 < 2 ^ 32 }
    ensures { result ≡ line_number so_far.now }
{
    so_far.events as u32 + 6
}

// Makes the event of a line, keeps count of what stands outside the pools, and tells whose event it was.
fn take_event<X: Expand>(
    world: &mut World,
    x: &X,
    so_far: &Replayed,
    line: &[u8],
    gauge: &mut Gauge,
) -> Result<u32, ReplayFault>
    requires fits { Fits (X.tree x.now) world.old.shared }
    requires few { so_far.now.events + 6 < 2 ^ 32 }
    requires counted { gauge.old ≡ gauge_of world.old }
    ensures fits { Fits (X.tree x.now) world.new.shared }
    ensures counted { OnOk result (gauge.new ≡ gauge_of world.new) }
    ensures made { OnOk result (Taken (X.tree x.now) world.old so_far.now line.now world.new) }
    ensures worker { IfOk result (λ w. IsMadeBy (X.tree x.now) world.old line.now w world.new) }
    ensures fault { IfErr result (λ why. GivesFault why (event_on world.old so_far.now (event_of line.now))) }
{
    let Some(event) = read_event(line) else {
        return Err(ReplayFault::BadLine(line_number(so_far)));
    };
    match step_counted(world, x, &event, gauge) {
        Stepped::Done => Ok(worker_of(&event)),
        Stepped::NotEnabled(guard) => Err(ReplayFault::NotEnabled(line_number(so_far), guard)),
        Stepped::NoMemory => Err(ReplayFault::NoMemory),
    }
}

// Lets the rows of a worker go. No event asks what rows there are, and what is told doesn't either.
fn let_rows_go(world: &mut World, w: u32)
    requires { w < length world.old.workers }
    ensures { world.new ≡ world_of (without_rows_at world.old.workers w) world.old.shared }
{
    world.take_rows(w);
}

// One event more.
fn with_event(so_far: Replayed, gauge: Gauge) -> Replayed
    requires { so_far.events + 1 < 2 ^ 64 }
    ensures { result ≡ with_event so_far gauge }
{
    Replayed {
        events: so_far.events + 1,
        most: greater(so_far.most, gauge),
    }
}

fn finish(world: &World, so_far: Replayed) -> Result<Replayed, ReplayFault>
    ensures { result ≡ finish world.now so_far }
{
    if world.finished() {
        Ok(so_far)
    } else {
        Err(ReplayFault::NotFinished)
    }
}

fn rest_from(bytes: &[u8], from: u64) -> &[u8]
    requires { from ≤ length bytes.now }
    ensures { result.now ≡ drop from bytes.now }
{
    &bytes[from as usize..]
}

// Whether the line says that the run is finished.
fn says_finished(line: &[u8]) -> bool
    ensures { result ≡ bytes_eq line.now (codes "finished") }
{
    line == b"finished".as_slice()
}

// The lines from here on, in a world of that start. No worker has a row before an event, so the rows of a run take no
// memory.
fn replay_lines<X: Expand>(world: &mut World, x: &X, text: &[u8]) -> Result<Replayed, ReplayFault>
    requires fits { Fits (X.tree x.now) world.old.shared }
    requires rowless { IsRowless world.old }
    requires short { length text.now ≤ FILE_BYTES }
    ensures exact { Gives (λ told. told) result (replayed (X.tree x.now) (lines text.now) world.old (begun world.old)) }
{
    let mut gauge = world.gauge();
    let mut so_far = Replayed {
        events: 0,
        most: gauge,
    };
    let mut lines = Lines::new(text);
    'lines: while let Some(line) = lines.next() {
        if says_finished(line) {
            return finish(world, so_far);
        }
        match take_event(world, x, &so_far, line, &mut gauge) {
            Ok(w) => let_rows_go(world, w),
            Err(why) => return Err(why),
        }
        so_far = with_event(so_far, gauge);
    }
    Err(ReplayFault::NotFinished)
}

/// Takes a run again: makes the events of a text's lines in turn, from that place on, to the line `finished`.
///
/// `BadLine` has the number of the first line that is neither an event's nor `finished`, `NotEnabled` that of the first
/// event of which a guard fails, with the first such guard, and `NotFinished` comes where the text ends before `finished`,
/// or `finished` before the run. Lines are counted from 1, and five of a header stand before the place. What follows
/// `finished` isn't read.
pub fn replay<X: Expand>(
    alloc: Global,
    x: &X,
    shape: &Shape,
    bytes: &[u8],
    from: u64,
) -> Result<Replayed, ReplayFault>
    requires stages { shape.now.stages ≡ (X.tree x.now).stages }
    requires machines { shape.now.machines ≡ (X.tree x.now).machines }
    requires place { from ≤ length bytes.now }
    requires short { length bytes.now ≤ FILE_BYTES }
    ensures exact { Gives (λ told. told) result (replayed (X.tree x.now) (lines (drop from bytes.now)) (start_world shape.now (X.tree x.now)) (begun (start_world shape.now (X.tree x.now)))) }
{
    let mut world = World::new(alloc, x, shape)?;
    replay_lines(&mut world, x, rest_from(bytes, from))
}
