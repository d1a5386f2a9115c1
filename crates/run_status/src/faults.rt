//! The status of a fault in the manifest, a table, the owner file or a trace.
ghost use Rattle.std.specs.Prelude.{◌≡◌};
ghost use Rattle.run_status.specs.Faults as faults;
ghost use Rattle.run_status.specs.Faults.{refused};

use crate::limits::passed;
use crate::status::Status;
use graph_tables::{Quantity, TableFault, TableKind};
use partition::PartFault;
use trace_text::{Guard, ReplayFault};
use value_text::CellFault;

fn refused(fault: TableFault, code: u32, cell: u32) -> Status
    ensures { result ≡ refused fault code cell }
{
    Status::TableFault {
        file: fault.file,
        row: fault.row,
        column: fault.column,
        code,
        cell,
    }
}

fn status_of_cell(fault: TableFault, cell: CellFault) -> Status
    ensures { result ≡ faults.status_of_cell fault cell }
{
    match cell {
        CellFault::BadInt => refused(fault, 32, 20),
        CellFault::WideInt => refused(fault, 32, 21),
        CellFault::BadBool => refused(fault, 32, 22),
        CellFault::BadDate => refused(fault, 32, 23),
        CellFault::BadText => refused(fault, 32, 24),
        CellFault::WrongCount => refused(fault, 32, 25),
        CellFault::NoMemory => Status::NoMemory,
    }
}

/// The status of a fault.
pub fn status_of(fault: TableFault) -> Status
    ensures { result ≡ faults.status_of_fault fault }
{
    match fault.kind {
        TableKind::BadManifest => refused(fault, 30, 0),
        TableKind::BadHeader => refused(fault, 31, 0),
        TableKind::BadCell(cell) => status_of_cell(fault, cell),
        TableKind::DoubleKey => refused(fault, 33, 0),
        TableKind::NoSuchVertex => refused(fault, 34, 0),
        TableKind::TooLong => passed(Quantity::FileBytes),
        TableKind::TooMany(quantity) => passed(quantity),
        TableKind::Missing => Status::Missing { file: fault.file },
        TableKind::ReadFault => Status::ReadFault { file: fault.file },
        TableKind::NoMemory => Status::NoMemory,
    }
}

/// The status of a fault of the owner file.
pub fn status_of_owners(fault: PartFault) -> Status
    ensures { result ≡ faults.status_of_owners fault }
{
    match fault {
        PartFault::NoMemory => Status::NoMemory,
        _ => Status::OwnerFault(fault),
    }
}

// The number of a guard.
fn guard_number(guard: Guard) -> u32
    ensures { result ≡ faults.guard_number guard }
{
    match guard {
        Guard::Worker => 1,
        Guard::Hand => 2,
        Guard::Stack => 3,
        Guard::Child => 4,
        Guard::Over => 5,
        Guard::Local => 6,
        Guard::Room => 7,
        Guard::Open => 8,
        Guard::Limit => 9,
        Guard::Enrolled => 10,
        Guard::Roots => 11,
        Guard::Pool => 12,
        Guard::Inbox => 13,
        Guard::Above => 14,
        Guard::Word => 15,
        Guard::Marks => 16,
        Guard::Flying => 17,
    }
}

/// The status of a trace that can't be taken again.
pub fn status_of_replay(fault: ReplayFault) -> Status
    ensures { result ≡ faults.status_of_replay fault }
{
    match fault {
        ReplayFault::BadLine(line) => Status::ReplayRefused {
            line,
            code: 60,
            guard: 0,
        },
        ReplayFault::NotEnabled(line, guard) => Status::ReplayRefused {
            line,
            code: 61,
            guard: guard_number(guard),
        },
        ReplayFault::NotFinished => Status::ReplayRefused {
            line: 0,
            code: 62,
            guard: 0,
        },
        ReplayFault::NoMemory => Status::NoMemory,
    }
}
