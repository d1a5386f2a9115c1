//! The enabled events of a worker, one function for each attempt.
ghost use Rattle.std.specs.Prelude.{◌≡◌, ℕ, ◌<◌, ◌≤◌, None, Some, IfSome, IfNone, MatchOption, length, slice_get};
ghost use Rattle.dfs_worker.specs.declared.event.Event.TheVariants as kind;
ghost use Rattle.world_core.specs.Step.{guard_of};
ghost use Rattle.world_progress.specs.Choice.{IsNext, IsOff, Fails, AllFail};

use bfs_budget::Attempt;
use dfs_worker::{Event, Hand};
use world_core::World;

/// The event, where it is enabled.
#[inline(always)]
fn if_enabled(world: &World, event: Event) -> Option<Event>
    ensures { MatchOption result (IsOff world.now event) (λ e. (e ≡ event) × (guard_of world.now event ≡ None)) }
{
    match world.guard(&event) {
        None => Some(event),
        Some(_) => None,
    }
}

/// The one step of what is in hand.
pub fn hand_event(world: &World, w: u32) -> Option<Event>
    requires within { w < length world.now.workers }
    ensures some { IfSome result (IsNext world.now w) }
    ensures none { IfNone result (Fails world.now w Attempt.Hand) }
{
    match world.worker(w).hand() {
        Hand::Free => None,
        Hand::Charged { .. } => if_enabled(world, Event::Fetch { w }),
        Hand::Posted(_) => if_enabled(world, Event::Push { w }),
        Hand::Popped(_) => if_enabled(world, Event::Pick { w }),
        Hand::Emptied { .. } => if_enabled(world, Event::Discharge { w }),
    }
}

/// The post of the buffer that is open for the waiting child, where it is full.
fn own_event(world: &World, w: u32) -> Option<Event>
    requires within { w < length world.now.workers }
    ensures { IfSome result (IsNext world.now w) }
{
    let worker = world.worker(w);
    let (stage, to) = worker.waiting()?;
    if worker.has_room(stage, to) {
        return None;
    }
    if_enabled(world, Event::Post { w, stage, to })
}

/// What the waiting child does first, where that is enabled: its full buffer is posted, or it goes into its buffer; where
/// none is open for it a credit is taken, or it becomes the top.
pub fn child_event(world: &World, w: u32) -> Option<Event>
    requires within { w < length world.now.workers }
    ensures { IfSome result (IsNext world.now w) }
{
    let worker = world.worker(w);
    let (stage, to) = worker.waiting()?;
    if worker.has_room(stage, to) {
        return if_enabled(world, Event::Append { w });
    }
    if worker.is_open(stage, to) {
        return if_enabled(world, Event::Post { w, stage, to });
    }
    let event = if_enabled(world, Event::Charge { w });
    if event.is_some() {
        return event;
    }
    if_enabled(world, Event::Descend { w })
}

/// The post of the open buffer of a stage for the lowest machine.
fn post_of(world: &World, w: u32, stage: u32) -> Option<Event>
    requires within { w < length world.now.workers }
    ensures some { IfSome result (IsNext world.now w) }
    ensures none { IfNone result ((to : ℕ) → to < world.now.shared.shape.machines → IsOff world.now (kind.Post w stage to)) }
{
    for to in 0..world.worker(w).machines() {
        let event = if_enabled(world, Event::Post { w, stage, to });
        if event.is_some() {
            return event;
        }
    }
    None
}

/// The post of an open buffer, of the highest stage first and then of the lowest machine.
fn post_event(world: &World, w: u32) -> Option<Event>
    requires within { w < length world.now.workers }
    ensures some { IfSome result (IsNext world.now w) }
    ensures none { IfNone result (Fails world.now w Attempt.PostOthers) }
{
    let mut stage = world.worker(w).stages();
    while stage > 0 {
        stage -= 1;
        let event = post_of(world, w, stage);
        if event.is_some() {
            return event;
        }
    }
    None
}

/// The pop of a message, of the highest stage that has one.
pub fn pop_event(world: &World, w: u32) -> Option<Event>
    requires within { w < length world.now.workers }
    ensures some { IfSome result (IsNext world.now w) }
    ensures none { IfNone result (Fails world.now w Attempt.Pop) }
{
    let mut stage = world.worker(w).stages();
    while stage > 0 {
        stage -= 1;
        let event = if_enabled(world, Event::Pop { w, stage });
        if event.is_some() {
            return event;
        }
    }
    None
}

/// The mark of the first word that may be marked of those that begin with this number.
fn mark_of(world: &World, w: u32, a: u32) -> Option<Event>
    requires within { w < length world.now.workers }
    ensures some { IfSome result (IsNext world.now w) }
    ensures none { IfNone result ((b : ℕ) → b < world.now.shared.shape.machines → IsOff world.now (kind.Mark w a b)) }
{
    for b in 0..world.worker(w).machines() {
        let event = if_enabled(world, Event::Mark { w, a, b });
        if event.is_some() {
            return event;
        }
    }
    None
}

/// The mark of the first word that may be marked.
fn mark_event(world: &World, w: u32) -> Option<Event>
    requires within { w < length world.now.workers }
    ensures some { IfSome result (IsNext world.now w) }
    ensures none { IfNone result (Fails world.now w Attempt.Mark) }
{
    for a in 0..world.worker(w).machines() {
        let event = mark_of(world, w, a);
        if event.is_some() {
            return event;
        }
    }
    None
}

/// The enabled event of an attempt.
fn event_of(world: &World, w: u32, attempt: Attempt) -> Option<Event>
    requires within { w < length world.now.workers }
    ensures some { IfSome result (IsNext world.now w) }
    ensures none { IfNone result (Fails world.now w attempt) }
{
    match attempt {
        Attempt::Hand => hand_event(world, w),
        Attempt::Restore => if_enabled(world, Event::Restore { w }),
        Attempt::Advance => if_enabled(world, Event::Advance { w }),
        Attempt::PostOwn => own_event(world, w),
        Attempt::Append => if_enabled(world, Event::Append { w }),
        Attempt::Charge => if_enabled(world, Event::Charge { w }),
        Attempt::Descend => if_enabled(world, Event::Descend { w }),
        Attempt::PostOthers => post_event(world, w),
        Attempt::Pop => pop_event(world, w),
        Attempt::Claim => if_enabled(world, Event::Claim { w }),
        Attempt::Retire => if_enabled(world, Event::Retire { w }),
        Attempt::Mark => mark_event(world, w),
        Attempt::Close => if_enabled(world, Event::Close { w }),
    }
}

/// The enabled event of the first of these attempts that has one.
pub fn first_of(world: &World, w: u32, attempts: &[Attempt]) -> Option<Event>
    requires within { w < length world.now.workers }
    ensures some { IfSome result (IsNext world.now w) }
    ensures none { IfNone result (AllFail world.now w attempts.now) }
{
    for attempt in attempts {
        let event = event_of(world, w, *attempt);
        if event.is_some() {
            return event;
        }
    }
    None
}
