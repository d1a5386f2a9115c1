//! What is told of a trace that is taken again.
ghost use Rattle.std.specs.Prelude.{◌≡◌, ◌≤◌, IfOk, drop, length};
ghost use Rattle.std.specs.Str.Lines.{lines};
ghost use Rattle.std.specs.String.{string_bytes};
ghost use Rattle.adfs_base.specs.declared.limits.TheConstants.{FILE_BYTES};
ghost use Rattle.run_trace.specs.Replay.{replayed};
ghost use Rattle.run_trace.specs.Runs.{begun};
ghost use Rattle.trace_text.specs.Faults.{Gives};
ghost use Rattle.world_core.specs.World.{start_world};
ghost use Rattle.query_traces.specs.Traces.{replayed_text, told_as, told_numbers};

use adfs_base::{NoMemory, Shape};
use match_context::Expand;
use run_trace::{Gauge, ReplayFault, Replayed, replay};
use std::alloc::{AllocError, Global};

fn told_numbers(
    alloc: Global,
    events: u64,
    buffers: u64,
    need: u64,
    contexts: u64,
    most: u64,
) -> Result<String, AllocError>
    ensures { IfOk result (λ text. string_bytes text ≡ told_numbers events buffers need contexts most) }
{
    format!(in alloc;
        "replayed {events} events\nbuffers {buffers} of {need}\ncontexts {contexts} of {most}\n"
    )
}

fn told_line(alloc: Global, told: Replayed, shape: &Shape) -> Result<String, AllocError>
    ensures { IfOk result (λ text. string_bytes text ≡ replayed_text shape.now told) }
{
    let need = shape.need();
    let most = shape.contexts();
    let Gauge { buffers, contexts } = told.most;
    told_numbers(alloc, told.events, buffers, need, contexts, most)
}

fn told_text(alloc: Global, told: Replayed, shape: &Shape) -> Result<Vec<u8>, NoMemory>
    ensures { IfOk result (λ text. text.items ≡ replayed_text shape.now told) }
{
    let line = told_line(alloc, told, shape)?;
    let mut out = Vec::new(alloc);
    out.extend_from_slice(line.as_bytes())?;
    Ok(out)
}

/// What is told of a trace whose events begin at that place, taken again on a tree: how many events there were, and the most
/// buffers and contexts that stood outside the pools beside their bounds. Or why it can't be taken again, as `replay` says.
pub fn replay_text<X: Expand>(
    alloc: Global,
    x: &X,
    shape: &Shape,
    bytes: &[u8],
    from: u64,
) -> Result<Vec<u8>, ReplayFault>
    requires stages { shape.now.stages ≡ (X.tree x.now).stages }
    requires machines { shape.now.machines ≡ (X.tree x.now).machines }
    requires place { from ≤ length bytes.now }
    requires short { length bytes.now ≤ FILE_BYTES }
    ensures { Gives (λ text. text.items) result (told_as shape.now (replayed (X.tree x.now) (lines (drop from bytes.now)) (start_world shape.now (X.tree x.now)) (begun (start_world shape.now (X.tree x.now))))) }
{
    let told = replay(alloc, x, shape, bytes, from)?;
    Ok(told_text(alloc, told, shape)?)
}
