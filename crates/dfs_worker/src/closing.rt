//! The steps of a turn that close stages: a word is marked, and a stage all of whose words are marked is closed.
ghost use Rattle.std.specs.Prelude.{◌≡◌, [], ◌∷◌};
ghost use Rattle.dfs_worker.specs.Turn.{Fits, Tried, NextMark, NextClose, mark_event};

use crate::event::Event;
use crate::turn::Turn;
use crate::worker::Worker;
use adfs_base::{Closing, Marked, Word};
use fabric::Fabric;
use match_context::Expand;

/// The next word of the stage that closes is marked, if it is 0.
pub fn mark<F: Fabric, X: Expand>(worker: &mut Worker, fabric: &mut F, _x: &X) -> Turn
    requires { Fits F.agrees F.shape F.roots (X.tree _x.now) worker.old fabric.old }
    ensures { Tried F.agrees F.done F.excused F.shape F.roots (X.tree _x.now) worker.old fabric.old (NextMark ∷ []) result worker.new fabric.new }
{
    let w = worker.number();
    let closed = fabric.closed(w);
    worker.moved(closed);
    let Some(word) = worker.closer().next_word() else {
        return Turn::Idle;
    };
    match fabric.mark(w, word) {
        Marked::Zero => {
            worker.mark(word);
            Turn::Did(mark_event(w, word))
        }
        Marked::Busy(_) => Turn::Idle,
    }
}

/// The event in which a worker marks a word.
fn mark_event(w: u32, word: Word) -> Event
    ensures { result ≡ mark_event w word }
{
    match word {
        Word::Enrolled(machine) => Event::Mark {
            w,
            a: machine,
            b: 0,
        },
        Word::Used { from, to, .. } => Event::Mark { w, a: from, b: to },
    }
}

/// The stage that closes is closed, if all of its words are marked.
pub fn close<F: Fabric, X: Expand>(worker: &mut Worker, fabric: &mut F, _x: &X) -> Turn
    requires { Fits F.agrees F.shape F.roots (X.tree _x.now) worker.old fabric.old }
    ensures { Tried F.agrees F.done F.excused F.shape F.roots (X.tree _x.now) worker.old fabric.old (NextClose ∷ []) result worker.new fabric.new }
{
    let w = worker.number();
    let closed = fabric.closed(w);
    worker.moved(closed);
    if !worker.closer().ready() {
        return Turn::Idle;
    }
    match fabric.close(w) {
        Closing::Closed => Turn::Did(Event::Close { w }),
        Closing::Moved(_, _) => Turn::Idle,
    }
}
