//! A staged tree: what the contexts are that come next.
ghost use Rattle.std.specs.Prelude.{◌≡◌, ◌+◌, ◌<◌};
ghost use Rattle.match_context.specs.Passes.{Passes};
ghost use Rattle.match_context.specs.Tree.{Tree, IsTree, answer, after};

use crate::{Context, Frame};

/// The next answer of a frame.
#[derive(Clone, Copy, Debug, PartialEq, Eq)]
pub enum Next {
    /// A context of the following stage, and the machine that is to go on with it.
    Child(Context, u32),
    /// A match of the whole pattern.
    Row(Context),
    /// Nothing came of this place. There may be more.
    Skip,
    /// The context has no further place.
    End,
}

/// What came of the last place that `Expand::seek` took.
#[derive(Clone, Copy, Debug, PartialEq, Eq)]
pub enum Found {
    /// A child, which waits in the frame.
    Child,
    /// A match of the whole pattern. The last stage alone has one, and there `Expand::next` tells it.
    Row,
    /// Nothing. There may be more.
    Skip,
    /// The context has no further place.
    End,
}

/// A staged tree: what each context of each stage leads to, on which machine.
///
/// No call takes memory. `next` is total: it answers for any context, also one that the tree never gave.
pub trait Expand {
    /// The tree, as contracts see it.
    ghost tree: { Self → Tree };

    /// How many stages it has.
    fn stages(&self) -> u32
        ensures { result ≡ (tree self.now).stages };

    /// How many machines it is spread over.
    fn machines(&self) -> u32
        ensures { result ≡ (tree self.now).machines };

    /// How many roots a machine has.
    fn roots(&self, machine: u32) -> u64
        requires { machine < (tree self.now).machines }
        ensures { result ≡ (tree self.now).roots machine };

    /// A machine's root, a context of stage 0.
    fn root(&self, machine: u32, place: u64) -> Context
        requires machine_in { machine < (tree self.now).machines }
        requires place_in { place < (tree self.now).roots machine }
        ensures { result ≡ (tree self.now).root machine place };

    /// Takes the frame's next place: the first of the answers that are still ahead of it on that machine. Of the
    /// frame it changes `place` and `context` alone, so that the later answers are then ahead.
    fn next(&self, machine: u32, frame: &mut Frame) -> Next
        requires machine_in { machine < (tree self.now).machines }
        requires stage_in { frame.old.stage < (tree self.now).stages }
        ensures answer { result ≡ answer ((tree self.now).ahead machine frame.old.stage frame.old.context frame.old.place) }
        ensures changed { frame.new ≡ after (tree self.now) machine frame.old };

    /// Passes over places of which nothing comes, and takes the one after them. It tells how many it passed over, and
    /// what came of that one: a child then waits in the frame. It may stop at a place of which nothing comes, too.
    fn seek(&self, machine: u32, frame: &mut Frame) -> (u64, Found)
        requires machine_in { machine < (tree self.now).machines }
        requires stage_in { frame.old.stage + 1 < (tree self.now).stages }
        ensures { Passes (tree self.now) machine frame.old result.0 result.1 frame.new }
    {
        let found = match self.next(machine, frame) {
            Next::Child(context, to) => {
                frame.wait = Some((context, to));
                Found::Child
            }
            Next::Row(_) => Found::Row,
            Next::Skip => Found::Skip,
            Next::End => Found::End,
        };
        (0, found)
    }

    // Its children are of the following stage and of machines that exist, rows come at the last stage alone, and
    // `next` leaves the later answers ahead.
    ghost lawful: { (x : Self) → IsTree (tree x) };
}
