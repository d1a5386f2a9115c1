//! How the counters are made, with a seat for each worker.
ghost use Rattle.std.specs.Prelude.{◌≡◌, ℕ, ◌+◌, ◌*◌, ◌/◌, ◌-◌, ◌<◌, [], ◌∷◌, length, slice_index, IfOk};
ghost use Rattle.adfs_base.specs.Shape.{IsShape};
ghost use Rattle.stage_credits.specs.Start.{StartWords};
ghost use Rattle.stage_credits.specs.Seats.{fresh_seat, AreFreshSeats, StandsFrom};

use crate::credits::{CreditSeat, Credits};
use crate::rule::OneOut;
use crate::setup::Setup;
use crate::view::View;
use adfs_base::{NoMemory, Shape};
use atomic_table::{Seat, Table};
use std::alloc::Global;

impl Setup {
    fn new(shape: &Shape, roots: &[u64]) -> Setup
        requires { length roots.now ≡ shape.now.machines }
        ensures shape { result.shape ≡ shape.now }
        ensures roots { (m : ℕ) → slice_index result.roots m ≡ slice_index roots.now m }
        ensures sound { IsShape result.shape }
    {
        let mut all = [0u64; 8];
        all[..shape.machines() as usize].copy_from_slice(roots);
        Setup {
            shape: *shape,
            roots: all,
        }
    }
}

/// The words at the start: all workers are enrolled, and all else is 0.
fn start_words(alloc: Global, setup: &Setup) -> Result<Vec<u64>, NoMemory>
    ensures { IfOk result (λ words. StartWords setup.now words.items) }
{
    let count = setup.closed() + 1;
    let mut words = Vec::from_elem(alloc, 0u64, count as usize)?;
    let workers = u64::from(setup.shape.workers());
    for machine in 0..setup.shape.machines() {
        words[setup.enrolled(machine) as usize] = workers;
    }
    Ok(words)
}

impl Credits {
    /// The counters of a shape and of so many roots of each machine, and a seat for each worker, in order.
    ///
    /// All workers are enrolled, and no credit is used, no root claimed and no stage closed.
    pub fn open(
        alloc: Global,
        shape: &Shape,
        roots: &[u64],
    ) -> Result<(Credits, Vec<CreditSeat>), NoMemory>
        requires { length roots.now ≡ shape.now.machines }
        ensures shape { IfOk result (λ r. r.0.setup.shape ≡ shape.now) }
        ensures roots { IfOk result (λ r. (m : ℕ) → slice_index r.0.setup.roots m ≡ slice_index roots.now m) }
        ensures seats { IfOk result (λ r. AreFreshSeats r.0 r.1.items) }
    {
        let setup = Setup::new(shape, roots);
        let words = start_words(alloc, &setup)?;
        let (table, mut first) = Table::of_words(alloc, words.as_slice(), &setup)?;
        let credits = Credits { table, setup };
        let seats = credits.deal(alloc, &mut first)?;
        Ok((credits, seats))
    }

    /// Deals a seat to each worker, from the one that stands for all.
    fn deal(&self, alloc: Global, first: &mut Seat<u8, View>) -> Result<Vec<CreditSeat>, NoMemory>
        requires { StandsFrom self.now 0 first.old.table_id first.old.me }
        ensures { IfOk result (λ seats. AreFreshSeats self.now seats.items) }
    {
        let count = self.setup.workers();
        let mut seats = Vec::new(alloc);
        for worker in 0..count {
            let seat = self.next_seat(first, worker);
            seats.push(seat)?;
        }
        Ok(seats)
    }

    /// The seat of the next worker.
    fn next_seat(&self, first: &mut Seat<u8, View>, worker: u32) -> CreditSeat
        requires worker { worker < self.now.setup.shape.machines * self.now.setup.shape.workers }
        requires seat { StandsFrom self.now worker first.old.table_id first.old.me }
        ensures seat { StandsFrom self.now (worker + 1) first.new.table_id first.new.me }
        ensures result { result ≡ fresh_seat self.now worker }
    {
        let machine = worker / self.setup.shape.workers();
        let seat = self.table.shared.split_seat::<OneOut>(first);
        CreditSeat {
            worker,
            machine,
            closed: 0,
            seat,
        }
    }
}
