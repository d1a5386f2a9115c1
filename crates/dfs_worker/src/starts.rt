//! The steps of a turn that begin and end a worker's roots, and the one that ends a message.
ghost use Rattle.std.specs.Prelude.{◌≡◌, [], ◌∷◌, None};
ghost use Rattle.dfs_worker.specs.Guards.{own_guard};
ghost use Rattle.dfs_worker.specs.Turn.{Fits, Tried, Step, Start};

use crate::event::Event;
use crate::hand::Hand;
use crate::turn::Turn;
use crate::worker::Worker;
use adfs_base::Claimed;
use fabric::Fabric;
use match_context::{Expand, Frame, Message, Rest};

/// The next chunk of roots. Where none is left the worker claims no more.
pub fn start<F: Fabric, X: Expand>(worker: &mut Worker, fabric: &mut F, x: &X) -> Turn
    requires fits { Fits F.agrees F.shape F.roots (X.tree x.now) worker.old fabric.old }
    ensures tried { Tried F.agrees F.done F.excused F.shape F.roots (X.tree x.now) worker.old fabric.old (Start ∷ []) result worker.new fabric.new }
    ensures kept { result ≡ Turn.Idle → worker.new ≡ worker.old }
{
    let w = worker.number();
    if worker.guard(&Event::Claim { w }).is_some() {
        return Turn::Idle;
    }
    match fabric.claim(w) {
        Claimed::Chunk(first, end) => {
            worker.claim(x, first, end);
            Turn::Did(Event::Claim { w })
        }
        Claimed::Exhausted(_) => {
            fabric.retire(w);
            worker.leave();
            Turn::Did(Event::Retire { w })
        }
        Claimed::Moved(_, _) => Turn::Idle,
    }
}

/// The buffer of the top, which is over, goes back to its pool. Where that hands it back, it stays in its frame, empty.
pub fn restore<F: Fabric, X: Expand>(worker: &mut Worker, fabric: &mut F, _x: &X) -> Turn
    requires fits { Fits F.agrees F.shape F.roots (X.tree _x.now) worker.old fabric.old }
    requires enabled { own_guard (Event.Restore 0) worker.old ≡ None }
    ensures { Tried F.agrees F.done F.excused F.shape F.roots (X.tree _x.now) worker.old fabric.old (Step (Event.Restore worker.old.number) ∷ []) result worker.new fabric.new }
{
    let w = worker.number();
    let Some(frame) = worker.take_frame() else {
        return Turn::Idle;
    };
    let Frame {
        stage: level,
        context,
        place,
        wait,
        rest,
    } = frame;
    match rest {
        Rest::Items {
            message,
            next,
            over,
        } => {
            let Message {
                from,
                stage,
                to,
                items: mut buffer,
            } = message;
            buffer.clear();
            match fabric.restore(w, buffer) {
                Ok(()) => {
                    let _ = worker.set_hand(Hand::Emptied { from, stage });
                    Turn::Did(Event::Restore { w })
                }
                Err(items) => {
                    let message = Message {
                        from,
                        stage,
                        to,
                        items,
                    };
                    worker.put_frame(Frame {
                        stage: level,
                        context,
                        place,
                        wait,
                        rest: Rest::Items {
                            message,
                            next,
                            over,
                        },
                    });
                    Turn::Idle
                }
            }
        }
        Rest::None => Turn::Idle,
        Rest::Roots { .. } => Turn::Idle,
    }
}
