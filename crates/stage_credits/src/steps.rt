//! The kinds of step, each on one word.
ghost use Rattle.std.specs.Prelude.{◌≡◌, ◌<◌, ◌≤◌, ◌^◌};
ghost use Rattle.stage_credits.specs.Layout.{units, stage_start, sender_of, target_of, limit_at, IsUnit};
ghost use Rattle.stage_credits.specs.Layout.{flying_of, cursor_of, enrolled_of, closed_word, word_count, roots_of};
ghost use Rattle.stage_credits.specs.Lists.{times};
ghost use Rattle.stage_credits.specs.Views.{after_look, after_exchange, after_charge, after_post, after_pick, after_discharge, after_end, after_claim, after_retire, after_mark, after_close};
ghost use Rattle.stage_credits.specs.Rule.{IsWordOf};
ghost use Rattle.stage_credits.specs.Seats.{IsSeatOf, IsSameSeat, with_view, MayCharge, HasMarkedAll};
ghost use Rattle.stage_credits.specs.Answers.{ClosedTells};

use crate::credits::{CreditSeat, Credits};
use crate::rule::{Check, Claim, Close, Discharge, Look, Post, Raise, Retire, Seek, Sight, Take};

impl Credits {
    /// Loads a word.
    pub(crate) fn look(&self, seat: &mut CreditSeat, word: u64) -> u64
        requires seat { IsSeatOf self.now seat.old }
        requires word { word < word_count self.now.setup }
        ensures view { seat.new ≡ with_view seat.old (after_look seat.old.view word result) }
        ensures limit { word < units self.now.setup → result ≤ limit_at self.now.setup word }
    {
        self.table
            .shared
            .load::<Look>(&mut seat.seat, word as usize)
    }

    /// Takes a credit of the unit, if as many are used as were seen.
    pub(crate) fn raise_used(&self, seat: &mut CreditSeat, stage: u32, unit: u64, seen: u64) -> u64
        requires seat { IsSeatOf self.now seat.old }
        requires unit { IsUnit self.now.setup unit × (sender_of self.now.setup unit ≡ seat.old.machine) }
        requires stage { stage_start self.now.setup stage ≤ unit }
        requires may { MayCharge self.now.setup seat.old.machine stage seat.old.view }
        requires room { (seen < limit_at self.now.setup unit) × (seen < 2 ^ 32) }
        ensures { seat.new ≡ with_view seat.old (after_exchange after_charge seat.old.view unit seen result) }
    {
        self.table
            .shared
            .compare_exchange::<Raise>(&mut seat.seat, unit as usize, seen, seen + 1)
    }

    /// Counts an open unit's message as under way.
    pub(crate) fn raise_flying(&self, seat: &mut CreditSeat, unit: u64) -> u64
        requires seat { IsSeatOf self.now seat.old }
        requires unit { unit < units self.now.setup }
        requires held { 0 < times unit seat.old.view.open_units }
        ensures { seat.new ≡ with_view seat.old (after_post seat.old.view (flying_of self.now.setup unit) result) }
    {
        let word = (self.setup.units() + unit) as usize;
        self.table.shared.fetch_add::<Post>(&mut seat.seat, word, 1)
    }

    /// Takes a message of the unit into work, if as many are under way as were seen.
    pub(crate) fn lower_flying(&self, seat: &mut CreditSeat, unit: u64, seen: u64) -> u64
        requires seat { IsSeatOf self.now seat.old }
        requires unit { IsUnit self.now.setup unit × (target_of unit ≡ seat.old.machine) }
        requires some_fly { 0 < seen }
        ensures { seat.new ≡ with_view seat.old (after_exchange after_pick seat.old.view (flying_of self.now.setup unit) seen result) }
    {
        let word = (self.setup.units() + unit) as usize;
        self.table
            .shared
            .compare_exchange::<Take>(&mut seat.seat, word, seen, seen - 1)
    }

    /// Gives the credit of a unit in work back.
    pub(crate) fn lower_used(&self, seat: &mut CreditSeat, unit: u64) -> u64
        requires seat { IsSeatOf self.now seat.old }
        requires unit { unit < units self.now.setup }
        requires held { 0 < times unit seat.old.view.work_units }
        ensures { seat.new ≡ with_view seat.old (after_discharge seat.old.view unit result) }
    {
        self.table
            .shared
            .fetch_sub::<Discharge>(&mut seat.seat, unit as usize, 1)
    }

    /// Loads the cursor of the seat's machine.
    pub(crate) fn look_at_cursor(&self, seat: &mut CreditSeat) -> u64
        requires seat { IsSeatOf self.now seat.old }
        ensures within { result ≤ roots_of self.now.setup seat.old.machine }
        ensures before { result < roots_of self.now.setup seat.old.machine → seat.new ≡ with_view seat.old (after_look seat.old.view (cursor_of self.now.setup seat.old.machine) result) }
        ensures end { roots_of self.now.setup seat.old.machine ≤ result → seat.new ≡ with_view seat.old (after_end seat.old.machine seat.old.view (cursor_of self.now.setup seat.old.machine) result) }
    {
        let word = self.setup.cursor(seat.machine);
        self.table
            .shared
            .load::<Seek>(&mut seat.seat, word as usize)
    }

    /// Claims the roots from the cursor up to this end, if the cursor is as it was seen.
    pub(crate) fn raise_cursor(&self, seat: &mut CreditSeat, first: u64, end: u64) -> u64
        requires seat { IsSeatOf self.now seat.old }
        requires order { first < end }
        requires end { end ≤ roots_of self.now.setup seat.old.machine }
        ensures { seat.new ≡ with_view seat.old (after_exchange (after_claim seat.old.machine end) seat.old.view (cursor_of self.now.setup seat.old.machine) first result) }
    {
        let word = self.setup.cursor(seat.machine);
        self.table
            .shared
            .compare_exchange::<Claim>(&mut seat.seat, word as usize, first, end)
    }

    /// Counts the seat's worker as enrolled no longer.
    pub(crate) fn lower_enrolled(&self, seat: &mut CreditSeat) -> u64
        requires seat { IsSeatOf self.now seat.old }
        requires enrolled { 0 < times seat.old.machine seat.old.view.enrolled }
        requires ended { 0 < times seat.old.machine seat.old.view.ended }
        ensures { seat.new ≡ with_view seat.old (after_retire seat.old.view (enrolled_of self.now.setup seat.old.machine) result) }
    {
        let word = self.setup.enrolled(seat.machine);
        self.table
            .shared
            .fetch_sub::<Retire>(&mut seat.seat, word as usize, 1)
    }

    /// Loads a word of the stage that the seat saw closed.
    pub(crate) fn check(&self, seat: &mut CreditSeat, word: u64) -> u64
        requires seat { IsSeatOf self.now seat.old }
        requires word { IsWordOf self.now.setup seat.old.view.closed word }
        ensures zero { result ≡ 0 → seat.new ≡ with_view seat.old (after_mark seat.old.view word result) }
        ensures busy { 0 < result → seat.new ≡ with_view seat.old (after_look seat.old.view word result) }
    {
        self.table
            .shared
            .load::<Check>(&mut seat.seat, word as usize)
    }

    /// Loads `closed`.
    pub(crate) fn look_at_closed(&self, seat: &mut CreditSeat) -> u32
        requires seat { IsSeatOf self.now seat.old }
        ensures seat { IsSameSeat seat.old seat.new }
        ensures told { ClosedTells self.now.setup seat.old.view result seat.new.view }
    {
        let word = self.setup.closed();
        let found = self
            .table
            .shared
            .load::<Sight>(&mut seat.seat, word as usize) as u32;
        if seat.closed < found {
            seat.closed = found;
        }
        found
    }

    /// Closes the stage that the seat saw as `closed`, if it is so still.
    pub(crate) fn raise_closed(&self, seat: &mut CreditSeat) -> u64
        requires seat { IsSeatOf self.now seat.old }
        requires stage { seat.old.view.closed < self.now.setup.shape.stages }
        requires marked { HasMarkedAll self.now.setup seat.old.view }
        ensures view { seat.new ≡ with_view seat.old (after_exchange after_close seat.old.view (closed_word self.now.setup) seat.old.view.closed result) }
        ensures never_falls { seat.old.view.closed ≤ result }
    {
        let word = self.setup.closed();
        let seen = u64::from(seat.closed);
        let found = self
            .table
            .shared
            .compare_exchange::<Close>(&mut seat.seat, word as usize, seen, seen + 1);
        if found == seen {
            seat.closed += 1;
        }
        found
    }
}
