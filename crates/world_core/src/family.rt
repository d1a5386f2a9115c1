//! Families of events, by what they change.
ghost use Rattle.std.specs.Prelude.{◌≡◌};
ghost use Rattle.world_core.specs.Families.{family_of};

use dfs_worker::Event;

/// A family of events.
#[derive(Clone, Copy, Debug, PartialEq, Eq)]
pub enum Family {
    /// The worker takes roots.
    Roots,
    /// Its top gives an answer.
    Answers,
    /// The worker alone changes, or what it does ends.
    Alone,
    /// A child gets a buffer, or a buffer leaves.
    Outward,
    /// A buffer comes in, or goes back.
    Inward,
}

/// The family of an event.
pub fn family_of(event: &Event) -> Family
    ensures { result ≡ family_of event.now }
{
    match event {
        Event::Claim { .. } => Family::Roots,
        Event::Advance { .. } => Family::Answers,
        Event::Charge { .. } => Family::Outward,
        Event::Fetch { .. } => Family::Outward,
        Event::Post { .. } => Family::Outward,
        Event::Push { .. } => Family::Outward,
        Event::Pop { .. } => Family::Inward,
        Event::Pick { .. } => Family::Inward,
        Event::Restore { .. } => Family::Inward,
        Event::Discharge { .. } => Family::Inward,
        Event::Retire { .. } => Family::Alone,
        Event::Descend { .. } => Family::Alone,
        Event::Append { .. } => Family::Alone,
        Event::Mark { .. } => Family::Alone,
        Event::Close { .. } => Family::Alone,
    }
}
