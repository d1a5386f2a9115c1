//! The calls of a worker: each tries once.
ghost use Rattle.std.specs.Prelude.{◌≡◌, ◌<◌, ◌≤◌, ◌^◌, ℕ};
ghost use Rattle.stage_credits.specs.Layout.{unit_of, flying_of, enrolled_of, place_of, stage_of, sender_of, stage_start, limit_at, IsUnit, IsWord};
ghost use Rattle.stage_credits.specs.Lists.{times};
ghost use Rattle.stage_credits.specs.Views.{after_post, after_discharge, after_retire};
ghost use Rattle.stage_credits.specs.Seats.{IsSeatOf, IsSameSeat, MayCharge, HasMarkedAll};
ghost use Rattle.stage_credits.specs.Answers.{ChargeTells, PickTells, ClaimTells, MarkTells, CloseTells, ClosedTells};

use crate::credits::{CreditSeat, Credits};
use adfs_base::{Charge, Claimed, Closing, Marked, Pick, ROOT_CHUNK, Word};

impl Credits {
    /// Takes a credit for a buffer to that stage of that machine, unless the limit is reached.
    ///
    /// The seat is enrolled, or it has work of a lower stage.
    pub fn charge(&self, seat: &mut CreditSeat, stage: u32, to: u32) -> Charge
        requires seat { IsSeatOf self.now seat.old }
        requires stage { (1 ≤ stage) × (stage < self.now.setup.shape.stages) }
        requires to { to < self.now.setup.shape.machines }
        requires may { MayCharge self.now.setup seat.old.machine stage seat.old.view }
        ensures seat { IsSameSeat seat.old seat.new }
        ensures told { ChargeTells self.now.setup (unit_of self.now.setup seat.old.machine stage to) seat.old.view result seat.new.view }
    {
        let unit = self.setup.unit(seat.machine, stage, to);
        let limit = u64::from(self.setup.limit(seat.machine, to));
        self.take_credit(seat, stage, unit, limit)
    }

    /// Takes a credit of the unit, unless its limit is reached.
    fn take_credit(&self, seat: &mut CreditSeat, stage: u32, unit: u64, limit: u64) -> Charge
        requires seat { IsSeatOf self.now seat.old }
        requires unit { IsUnit self.now.setup unit × (sender_of self.now.setup unit ≡ seat.old.machine) }
        requires stage { stage_start self.now.setup stage ≤ unit }
        requires limit { (limit ≡ limit_at self.now.setup unit) × (limit < 2 ^ 32) }
        requires may { MayCharge self.now.setup seat.old.machine stage seat.old.view }
        ensures seat { IsSameSeat seat.old seat.new }
        ensures told { ChargeTells self.now.setup unit seat.old.view result seat.new.view }
    {
        let seen = self.look(seat, unit);
        if seen >= limit {
            return Charge::Full(seen);
        }
        let found = self.raise_used(seat, stage, unit, seen);
        if found == seen {
            Charge::Charged
        } else {
            Charge::Moved(seen, found)
        }
    }

    /// Tells that the message of an open unit is under way.
    pub fn post(&self, seat: &mut CreditSeat, stage: u32, to: u32)
        requires seat { IsSeatOf self.now seat.old }
        requires stage { (1 ≤ stage) × (stage < self.now.setup.shape.stages) }
        requires to { to < self.now.setup.shape.machines }
        requires held { 0 < times (unit_of self.now.setup seat.old.machine stage to) seat.old.view.open_units }
        ensures seat { IsSameSeat seat.old seat.new }
        ensures told { (found : ℕ) × (seat.new.view ≡ after_post seat.old.view (flying_of self.now.setup (unit_of self.now.setup seat.old.machine stage to)) found) }
    {
        let unit = self.setup.unit(seat.machine, stage, to);
        self.raise_flying(seat, unit);
    }

    /// Takes a message of that sender and stage to the seat's machine into work, if one is under way.
    pub fn pick(&self, seat: &mut CreditSeat, from: u32, stage: u32) -> Pick
        requires seat { IsSeatOf self.now seat.old }
        requires from { from < self.now.setup.shape.machines }
        requires stage { (1 ≤ stage) × (stage < self.now.setup.shape.stages) }
        ensures seat { IsSameSeat seat.old seat.new }
        ensures told { PickTells (flying_of self.now.setup (unit_of self.now.setup from stage seat.old.machine)) seat.old.view result seat.new.view }
    {
        let unit = self.setup.unit(from, stage, seat.machine);
        let seen = self.look(seat, self.setup.units() + unit);
        if seen == 0 {
            return Pick::NoneFlying(seen);
        }
        let found = self.lower_flying(seat, unit, seen);
        if found == seen {
            Pick::Picked
        } else {
            Pick::Moved(seen, found)
        }
    }

    /// Gives the credit of a message in work back.
    pub fn discharge(&self, seat: &mut CreditSeat, from: u32, stage: u32)
        requires seat { IsSeatOf self.now seat.old }
        requires from { from < self.now.setup.shape.machines }
        requires stage { (1 ≤ stage) × (stage < self.now.setup.shape.stages) }
        requires held { 0 < times (unit_of self.now.setup from stage seat.old.machine) seat.old.view.work_units }
        ensures seat { IsSameSeat seat.old seat.new }
        ensures told { (found : ℕ) × (seat.new.view ≡ after_discharge seat.old.view (unit_of self.now.setup from stage seat.old.machine) found) }
    {
        let unit = self.setup.unit(from, stage, seat.machine);
        self.lower_used(seat, unit);
    }

    /// Claims the next roots of the seat's machine, at most 64.
    pub fn claim(&self, seat: &mut CreditSeat) -> Claimed
        requires seat { IsSeatOf self.now seat.old }
        requires enrolled { 0 < times seat.old.machine seat.old.view.enrolled }
        ensures seat { IsSameSeat seat.old seat.new }
        ensures told { ClaimTells self.now.setup seat.old.machine seat.old.view result seat.new.view }
    {
        let roots = self.setup.end(seat.machine);
        let first = self.look_at_cursor(seat);
        if first >= roots {
            return Claimed::Exhausted(first);
        }
        let end = first.saturating_add(ROOT_CHUNK).min(roots);
        let found = self.raise_cursor(seat, first, end);
        if found == first {
            Claimed::Chunk(first, end)
        } else {
            Claimed::Moved(first, found)
        }
    }

    /// The seat's worker claims no more roots, having seen the end.
    pub fn retire(&self, seat: &mut CreditSeat)
        requires seat { IsSeatOf self.now seat.old }
        requires enrolled { 0 < times seat.old.machine seat.old.view.enrolled }
        requires ended { 0 < times seat.old.machine seat.old.view.ended }
        ensures seat { IsSameSeat seat.old seat.new }
        ensures told { (found : ℕ) × (seat.new.view ≡ after_retire seat.old.view (enrolled_of self.now.setup seat.old.machine) found) }
    {
        self.lower_enrolled(seat);
    }

    /// Marks a word of the stage that the seat saw as `closed`, if it is 0.
    pub fn mark(&self, seat: &mut CreditSeat, word: Word) -> Marked
        requires seat { IsSeatOf self.now seat.old }
        requires word { IsWord self.now.setup.shape word }
        requires stage { stage_of word ≡ seat.old.view.closed }
        ensures seat { IsSameSeat seat.old seat.new }
        ensures told { MarkTells (place_of self.now.setup word) seat.old.view result seat.new.view }
    {
        let place = self.setup.place(word);
        let seen = self.check(seat, place);
        if seen == 0 {
            Marked::Zero
        } else {
            Marked::Busy(seen)
        }
    }

    /// Closes the stage that the seat saw as `closed`, all of whose words it has marked.
    pub fn close(&self, seat: &mut CreditSeat) -> Closing
        requires seat { IsSeatOf self.now seat.old }
        requires stage { seat.old.view.closed < self.now.setup.shape.stages }
        requires marked { HasMarkedAll self.now.setup seat.old.view }
        ensures seat { IsSameSeat seat.old seat.new }
        ensures told { CloseTells self.now.setup seat.old.view result seat.new.view }
    {
        let seen = u64::from(seat.closed);
        let found = self.raise_closed(seat);
        if found == seen {
            Closing::Closed
        } else {
            Closing::Moved(seen, found)
        }
    }

    /// How many stages are closed. It never falls.
    pub fn closed(&self, seat: &mut CreditSeat) -> u32
        requires seat { IsSeatOf self.now seat.old }
        ensures seat { IsSameSeat seat.old seat.new }
        ensures told { ClosedTells self.now.setup seat.old.view result seat.new.view }
    {
        self.look_at_closed(seat)
    }
}
