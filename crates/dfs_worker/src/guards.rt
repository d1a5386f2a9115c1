//! The guards of each event that look at the worker alone.
ghost use Rattle.std.specs.Prelude.{◌≡◌, ◌↔◌, IsTrue, Some, None, if◌then◌else◌};
ghost use Rattle.dfs_worker.specs.Guards.{own_guard, start_guard, top_over, waits, is_charged, is_posted, is_popped, is_emptied};
ghost use Rattle.dfs_worker.specs.Sound.{IsWorker};
ghost use Rattle.dfs_worker.specs.State.{is_over, is_free, next_stage};

use crate::event::Event;
use crate::guard::Guard;
use crate::hand::Hand;
use crate::worker::Worker;
use match_context::Rest;

/// The guard that fails where the test does, else none.
#[inline(always)]
fn unless(test: bool, guard: Guard) -> Option<Guard>
    ensures { result ≡ (if test then None else Some guard) }
{
    if test { None } else { Some(guard) }
}

/// Whether it is the rest of a message frame that is over.
pub fn is_over(rest: &Rest) -> bool
    ensures { result ≡ is_over rest.now }
{
    match rest {
        Rest::Items { over, .. } => *over,
        Rest::None => false,
        Rest::Roots { .. } => false,
    }
}

impl Worker {
    /// The first of the event's guards that fails on the worker alone. What the event asks of what the workers
    /// share is tested after these.
    #[inline(always)]
    pub fn guard(&self, event: &Event) -> Option<Guard>
        requires { IsWorker self.now }
        ensures { result ≡ own_guard event.now self.now }
    {
        match event {
            Event::Claim { .. } => self.start_guard(),
            Event::Retire { .. } => self.start_guard(),
            Event::Advance { .. } => self.advance_guard(),
            Event::Descend { .. } => self.descend_guard(),
            Event::Append { .. } => self.append_guard(),
            Event::Charge { .. } => self.charge_guard(),
            Event::Fetch { .. } => unless(self.is_charged(), Guard::Hand),
            Event::Post { stage, to, .. } => self.post_guard(*stage, *to),
            Event::Push { .. } => unless(self.is_posted(), Guard::Hand),
            Event::Pop { stage, .. } => self.pop_guard(*stage),
            Event::Pick { .. } => unless(self.is_popped(), Guard::Hand),
            Event::Restore { .. } => self.restore_guard(),
            Event::Discharge { .. } => unless(self.is_emptied(), Guard::Hand),
            Event::Mark { .. } => unless(self.is_free(), Guard::Hand),
            Event::Close { .. } => unless(self.is_free(), Guard::Hand),
        }
    }

    /// Whether nothing is in its hand.
    pub fn is_free(&self) -> bool
        ensures { result ≡ is_free self.now.hand }
    {
        match self.hand() {
            Hand::Free => true,
            _ => false,
        }
    }

    fn is_charged(&self) -> bool
        ensures { result ≡ is_charged self.now.hand }
    {
        match self.hand() {
            Hand::Charged { .. } => true,
            _ => false,
        }
    }

    fn is_posted(&self) -> bool
        ensures { result ≡ is_posted self.now.hand }
    {
        match self.hand() {
            Hand::Posted(_) => true,
            _ => false,
        }
    }

    fn is_popped(&self) -> bool
        ensures { result ≡ is_popped self.now.hand }
    {
        match self.hand() {
            Hand::Popped(_) => true,
            _ => false,
        }
    }

    fn is_emptied(&self) -> bool
        ensures { result ≡ is_emptied self.now.hand }
    {
        match self.hand() {
            Hand::Emptied { .. } => true,
            _ => false,
        }
    }

    /// Of a claim, and of the end of all claims.
    fn start_guard(&self) -> Option<Guard>
        ensures { result ≡ start_guard self.now }
    {
        if !self.is_free() {
            Some(Guard::Hand)
        } else if !self.enrolled() {
            Some(Guard::Enrolled)
        } else {
            unless(self.top().is_none(), Guard::Stack)
        }
    }

    pub(crate) fn advance_guard(&self) -> Option<Guard>
        ensures { result ≡ own_guard (Event.Advance 0) self.now }
    {
        if !self.is_free() {
            return Some(Guard::Hand);
        }
        let Some(top) = self.top() else {
            return Some(Guard::Stack);
        };
        if top.wait.is_some() {
            Some(Guard::Child)
        } else {
            unless(!is_over(&top.rest), Guard::Over)
        }
    }

    /// Whether its top has an answer to give now.
    #[inline]
    pub fn may_advance(&self) -> bool
        ensures { IsTrue result ↔ (own_guard (Event.Advance 0) self.now ≡ None) }
    {
        match self.top() {
            Some(top) => self.is_free() && top.wait.is_none() && !is_over(&top.rest),
            None => false,
        }
    }

    fn descend_guard(&self) -> Option<Guard>
        requires { IsWorker self.now }
        ensures { result ≡ own_guard (Event.Descend 0) self.now }
    {
        if !self.is_free() {
            return Some(Guard::Hand);
        }
        if self.top().is_none() {
            return Some(Guard::Stack);
        }
        match self.waiting() {
            None => Some(Guard::Child),
            Some((_, to)) => unless(to == self.machine(), Guard::Local),
        }
    }

    fn append_guard(&self) -> Option<Guard>
        requires { IsWorker self.now }
        ensures { result ≡ own_guard (Event.Append 0) self.now }
    {
        if !self.is_free() {
            return Some(Guard::Hand);
        }
        if self.top().is_none() {
            return Some(Guard::Stack);
        }
        match self.waiting() {
            None => Some(Guard::Child),
            Some((stage, to)) => unless(self.has_room(stage, to), Guard::Room),
        }
    }

    fn charge_guard(&self) -> Option<Guard>
        requires { IsWorker self.now }
        ensures { result ≡ own_guard (Event.Charge 0) self.now }
    {
        if !self.is_free() {
            return Some(Guard::Hand);
        }
        if self.top().is_none() {
            return Some(Guard::Stack);
        }
        match self.waiting() {
            None => Some(Guard::Child),
            Some((stage, to)) => unless(!self.is_open(stage, to), Guard::Open),
        }
    }

    fn post_guard(&self, stage: u32, to: u32) -> Option<Guard>
        ensures { result ≡ own_guard (Event.Post 0 stage to) self.now }
    {
        if self.is_free() {
            unless(self.is_open(stage, to), Guard::Open)
        } else {
            Some(Guard::Hand)
        }
    }

    fn pop_guard(&self, stage: u32) -> Option<Guard>
        requires { IsWorker self.now }
        ensures { result ≡ own_guard (Event.Pop 0 stage) self.now }
    {
        if self.is_free() {
            unless(self.next_stage() <= stage, Guard::Above)
        } else {
            Some(Guard::Hand)
        }
    }

    pub(crate) fn restore_guard(&self) -> Option<Guard>
        ensures { result ≡ own_guard (Event.Restore 0) self.now }
    {
        if !self.is_free() {
            return Some(Guard::Hand);
        }
        match self.top() {
            None => Some(Guard::Stack),
            Some(top) => unless(is_over(&top.rest), Guard::Over),
        }
    }
}
