//! One answer of a frame, made in place.
ghost use Rattle.std.specs.Prelude.{◌≡◌, ◌+◌, ◌<◌, ◌≤◌, length, vec_len, vec_capacity, OnOk, OnErr, IfOk, Some, None, if◌then◌else◌};
ghost use Rattle.dfs_worker.specs.Own.{ended, stepped, rows_with, answer_at, IsRow, frame_if};
ghost use Rattle.dfs_worker.specs.Passing.{Passed};
ghost use Rattle.dfs_worker.specs.Sound.{RestFits};
ghost use Rattle.match_context.specs.Tree.{after};

use adfs_base::NoMemory;
use match_context::{Context, Expand, Found, Frame, Next, Rest};

/// Makes one answer of a frame, in place. A row goes to the rows, and only that may find no memory; then the frame is
/// as before.
///
/// `false` says that the frame is to be taken off. The context is saved only where a row may come and find no room.
pub fn step<X: Expand>(
    x: &X,
    machine: u32,
    frame: &mut Frame,
    rows: &mut Vec<Context>,
) -> Result<bool, NoMemory>
    requires machine_in { machine < (X.tree x.now).machines }
    requires stage_in { frame.old.stage < (X.tree x.now).stages }
    requires roots_in { RestFits ((X.tree x.now).roots machine) frame.old.rest }
    ensures ok { IfOk result (λ kept. stepped (X.tree x.now) machine (after (X.tree x.now) machine frame.old) (answer_at (X.tree x.now) machine frame.old) ≡ frame_if kept frame.new) }
    ensures rows { OnOk result (rows.new.items ≡ rows_with rows.old.items (answer_at (X.tree x.now) machine frame.old)) }
    ensures err { OnErr result ((frame.new ≡ frame.old) × (rows.new.items ≡ rows.old.items)) }
    ensures memory { OnErr result (IsRow (answer_at (X.tree x.now) machine frame.old)) }
{
    if rows.len() < rows.capacity() || frame.stage < x.stages() - 1 {
        return answer(x, machine, frame, rows);
    }
    let context = frame.context;
    let place = frame.place;
    let answered = answer(x, machine, frame, rows);
    if answered.is_err() {
        frame.context = context;
        frame.place = place;
    }
    answered
}

/// Makes one answer of a frame, in place. A row goes to the rows, and only that may find no memory.
///
/// `false` says that the frame is to be taken off. After `NoMemory` the answer is taken from the frame, and is lost.
fn answer<X: Expand>(
    x: &X,
    machine: u32,
    frame: &mut Frame,
    rows: &mut Vec<Context>,
) -> Result<bool, NoMemory>
    requires machine_in { machine < (X.tree x.now).machines }
    requires stage_in { frame.old.stage < (X.tree x.now).stages }
    requires roots_in { RestFits ((X.tree x.now).roots machine) frame.old.rest }
    ensures ok { IfOk result (λ kept. stepped (X.tree x.now) machine (after (X.tree x.now) machine frame.old) (answer_at (X.tree x.now) machine frame.old) ≡ frame_if kept frame.new) }
    ensures rows { OnOk result (rows.new.items ≡ rows_with rows.old.items (answer_at (X.tree x.now) machine frame.old)) }
    ensures err { OnErr result ((frame.new ≡ after (X.tree x.now) machine frame.old) × (rows.new.items ≡ rows.old.items)) }
    ensures memory { OnErr result (IsRow (answer_at (X.tree x.now) machine frame.old) × (vec_capacity rows.old ≤ vec_len rows.old) × (frame.old.stage + 1 ≡ (X.tree x.now).stages)) }
{
    match x.next(machine, frame) {
        Next::Child(context, to) => frame.wait = Some((context, to)),
        Next::Row(row) => rows.push(row)?,
        Next::Skip => {}
        Next::End => return Ok(move_on(x, machine, frame)),
    }
    Ok(true)
}

/// Makes answers of a frame before the last stage, in place: those of which nothing comes, and one more. It tells how
/// many gave nothing, and then whether the frame stays.
pub fn pass<X: Expand>(x: &X, machine: u32, frame: &mut Frame) -> (u64, bool)
    requires machine_in { machine < (X.tree x.now).machines }
    requires stage_in { frame.old.stage + 1 < (X.tree x.now).stages }
    requires roots_in { RestFits ((X.tree x.now).roots machine) frame.old.rest }
    ensures { Passed (X.tree x.now) machine frame.old result.0 (frame_if result.1 frame.new) }
{
    let (passed, found) = x.seek(machine, frame);
    match found {
        Found::End => (passed, move_on(x, machine, frame)),
        _ => (passed, true),
    }
}

/// Goes on with the frame's next root or item, as its context has ended. A message frame that has none is over;
/// any other is to be taken off, which `false` says.
fn move_on<X: Expand>(x: &X, machine: u32, frame: &mut Frame) -> bool
    requires machine_in { machine < (X.tree x.now).machines }
    requires roots_in { RestFits ((X.tree x.now).roots machine) frame.old.rest }
    ensures { ended (X.tree x.now) machine frame.old frame.old.rest ≡ frame_if result frame.new }
{
    match &mut frame.rest {
        Rest::None => return false,
        Rest::Roots { next, end } => {
            if *next >= *end {
                return false;
            }
            frame.context = x.root(machine, *next);
            frame.place = 0;
            *next += 1;
        }
        Rest::Items {
            message,
            next,
            over,
        } => {
            let items = message.items.items();
            let at = *next as usize;
            if at < items.len() {
                frame.context = items[at];
                frame.place = 0;
                *next += 1;
            } else {
                *over = true;
            }
        }
    }
    true
}
