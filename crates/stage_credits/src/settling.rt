//! How the counters are settled, once all seats are back.
ghost use Rattle.std.specs.Prelude.{◌≡◌, ℕ, ◌*◌, ◌<◌, ◌≤◌, length, slice_index};
ghost use Rattle.stage_credits.specs.Layout.{roots_of};
ghost use Rattle.stage_credits.specs.Rule.{covers};
ghost use Rattle.stage_credits.specs.Seats.{AreAllSeats, ClaimsMeet, ChunksWeigh, claims};

use crate::credits::{CreditSeat, Credits};
use crate::rule::AllIn;
use crate::view::View;
use atomic_table::Seat;

impl Credits {
    /// The machines' cursors, once all seats are back. The chunks of the seats are exactly the roots below them, each once.
    pub fn settle(self, seats: Vec<CreditSeat>) -> [u64; 8]
        requires { AreAllSeats self seats.items }
        ensures claims { ClaimsMeet self.setup.shape.machines result seats.items }
        ensures weights { ChunksWeigh self.setup.shape.machines result seats.items }
        ensures within { (m : ℕ) → m < self.setup.shape.machines → slice_index result m ≤ roots_of self.setup m }
        ensures past { (m : ℕ) → self.setup.shape.machines ≤ m → slice_index result m ≡ 0 }
    {
        let whole = self.gather(seats);
        self.read_out(whole)
    }

    /// All seats in one.
    fn gather(&self, mut seats: Vec<CreditSeat>) -> Seat<u8, View>
        requires { AreAllSeats self.now seats.items }
        ensures seat { (result.table_id ≡ self.now.table) × (length result.me.0.workers ≡ self.now.setup.shape.machines * self.now.setup.shape.workers) }
        ensures chunks { (m : ℕ) → (place : ℕ) → covers m place result.me.0.chunks ≡ claims m place seats.items }
    {
        let workers = self.setup.workers();
        prove!(workers >= 1);
        let Some(last) = seats.pop() else {
            unreachable!()
        };
        let CreditSeat {
            worker: _,
            machine: _,
            closed: _,
            mut seat,
        } = last;
        while let Some(other) = seats.pop() {
            let CreditSeat {
                worker: _,
                machine: _,
                closed: _,
                seat: other,
            } = other;
            self.table.shared.join_seat::<AllIn>(&mut seat, other);
        }
        seat
    }

    /// The cursors, by the seat that stands for all workers.
    fn read_out(self, whole: Seat<u8, View>) -> [u64; 8]
        requires { (whole.table_id ≡ self.table) × (length whole.me.0.workers ≡ self.setup.shape.machines * self.setup.shape.workers) }
        ensures claims { (m : ℕ) → (place : ℕ) → m < self.setup.shape.machines
            → (place < slice_index result m → covers m place whole.me.0.chunks ≡ 1)
            × (slice_index result m ≤ place → covers m place whole.me.0.chunks ≡ 0) }
        ensures within { (m : ℕ) → m < self.setup.shape.machines → slice_index result m ≤ roots_of self.setup m }
        ensures past { (m : ℕ) → self.setup.shape.machines ≤ m → slice_index result m ≡ 0 }
    {
        let Credits { table, setup } = self;
        let closed = table.close_with(whole);
        let mut cursors = [0u64; 8];
        for machine in 0..setup.shape.machines() {
            cursors[machine as usize] = closed.word(setup.cursor(machine) as usize);
        }
        closed.free();
        cursors
    }
}
