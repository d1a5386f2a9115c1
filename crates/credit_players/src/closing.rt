//! Two workers of one machine retire, mark and close.
ghost use Rattle.std.specs.Prelude.{◌≡◌, []};
ghost use Rattle.stage_credits.specs.Seats.{IsSeatOf};
ghost use Rattle.credit_players.specs.Players.{IsAtStart, HasLeft, MayClose, IsSmallest};

use adfs_base::{Claimed, Closing, Marked, Word};
use stage_credits::{CreditSeat, Credits};

/// What the calls answered, in their order.
#[derive(Clone, Copy, Debug, PartialEq, Eq)]
pub struct Answers {
    pub while_enrolled: Marked,
    pub marked: (Marked, Marked),
    pub closed: (Option<Closing>, Option<Closing>),
    pub seen: u32,
    pub last: Option<Closing>,
    pub all: u32,
}

/// Sees the end of no roots, and retires.
fn leave(credits: &Credits, seat: &mut CreditSeat)
    requires { IsAtStart credits.now seat.old }
    ensures { HasLeft credits.now seat.new }
{
    match credits.claim(seat) {
        Claimed::Exhausted(_) => credits.retire(seat),
        Claimed::Chunk(_, _) | Claimed::Moved(_, _) => unreachable!(),
    }
}

/// One worker retires, which leaves a word above 0; then the other one does, and both mark the word. Both would close
/// stage 0, and the first one closes the last stage too.
pub fn close_all(credits: &Credits, first: &mut CreditSeat, second: &mut CreditSeat) -> Answers
    requires first { IsAtStart credits.now first.old }
    requires second { IsAtStart credits.now second.old }
    ensures first { IsSeatOf credits.now first.new }
    ensures second { IsSeatOf credits.now second.new }
{
    leave(credits, first);
    let while_enrolled = credits.mark(first, Word::Enrolled(0));
    leave(credits, second);
    let marked = credits.mark(first, Word::Enrolled(0));
    let marked_too = credits.mark(second, Word::Enrolled(0));
    let closed = close_first(credits, first, marked);
    let closed_too = close_first(credits, second, marked_too);
    let seen = credits.closed(first);
    let last = close_last(credits, first, seen);
    Answers {
        while_enrolled,
        marked: (marked, marked_too),
        closed: (closed, closed_too),
        seen,
        last,
        all: credits.closed(second),
    }
}

/// Closes stage 0, where its word was marked.
fn close_first(credits: &Credits, seat: &mut CreditSeat, marked: Marked) -> Option<Closing>
    requires { MayClose credits.now marked seat.old }
    ensures { IsSeatOf credits.now seat.new }
{
    match marked {
        Marked::Zero => Some(credits.close(seat)),
        Marked::Busy(_) => None,
    }
}

/// Closes stage 1, where it is seen closed up to there and its word is 0.
fn close_last(credits: &Credits, seat: &mut CreditSeat, seen: u32) -> Option<Closing>
    requires { IsSmallest credits.now seat.old seen }
    ensures { IsSeatOf credits.now seat.new }
{
    if seen != 1 {
        return None;
    }
    let word = Word::Used {
        from: 0,
        stage: 1,
        to: 0,
    };
    match credits.mark(seat, word) {
        Marked::Zero => Some(credits.close(seat)),
        Marked::Busy(_) => None,
    }
}
