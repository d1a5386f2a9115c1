//! The counters, and the seats of the workers.
ghost use Rattle.std.specs.Prelude.{◌≡◌};
ghost use Rattle.stage_credits.specs.Seats.{IsOfWorker};

use crate::rule::CreditRule;
use crate::setup::Setup;
use crate::view::View;
use adfs_base::Shape;
use atomic_table::{Seat, Table};
use std::alloc::Global;
use std::marker::Model;

/// The counters that all workers share. A contract sees them as `Counters`.
#[derive(Drop)]
pub struct Credits {
    pub(crate) table: Table<u8, View, Setup, CreditRule, Global>,
    pub(crate) setup: Setup,
}

impl Model for Credits {
    ghost use Rattle.std.specs.Prelude.{◌≡◌};
    ghost use Rattle.stage_credits.specs.Layout.{word_count};
    ghost use Rattle.stage_credits.specs.Seats.{Counters};

    ghost Value = { Counters };

    ghost view = { λ c. record { table = c.table.shared.table_id; setup = c.setup } };

    ghost invariant = { λ c. (c.table.shared.key ≡ c.setup) × (c.table.shared.table_id.words ≡ word_count c.setup) × (c.table.shared.table_id.slots ≡ 0) };
}

impl Credits {
    /// The shape of the run.
    pub fn shape(&self) -> &Shape
        ensures { result.now ≡ self.now.setup.shape }
    {
        &self.setup.shape
    }
}

/// The seat of one worker, through which it steps on the counters. A contract sees it as a `Seated`.
#[derive(Drop)]
pub struct CreditSeat {
    pub(crate) worker: u32,
    pub(crate) machine: u32,
    /// The greatest `closed` that it saw.
    pub(crate) closed: u32,
    pub(crate) seat: Seat<u8, View>,
}

impl Model for CreditSeat {
    ghost use Rattle.std.specs.Prelude.{◌≡◌, []};
    ghost use Rattle.stage_credits.specs.Seats.{Seated, IsOfWorker};

    ghost Value = { Seated };

    ghost view = { λ s. record { table = s.seat.table_id; worker = s.worker; machine = s.machine; view = s.seat.me.0 } };

    ghost invariant = { λ s. (s.seat.me.1 ≡ []) × IsOfWorker s.machine s.closed s.seat.me.0 };
}

impl CreditSeat {
    /// The number of its worker. Those of a machine are numbered one after the other.
    pub fn worker(&self) -> u32
        ensures { result ≡ self.now.worker }
    {
        self.worker
    }

    /// The machine of its worker. Whatever the seat's view has is of this machine.
    pub fn machine(&self) -> u32
        ensures number { result ≡ self.now.machine }
        ensures own { IsOfWorker self.now.machine self.now.view.closed self.now.view }
    {
        self.machine
    }

    /// The greatest `closed` that it saw.
    pub fn closed(&self) -> u32
        ensures { result ≡ self.now.view.closed }
    {
        self.closed
    }
}
