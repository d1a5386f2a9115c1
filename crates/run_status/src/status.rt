//! How a run ended, as a number and a line.
ghost use Rattle.std.specs.Prelude.{◌≡◌, ◌++◌, OnOk, OnErr, IfOk};
ghost use Rattle.std.specs.String.{string_bytes};
ghost use Rattle.run_status.specs.StatusLine.{no_memory_line, owner_line, owners_refused, quantity_name, status_line, status_number};

use adfs_base::NoMemory;
use graph_tables::Quantity;
use partition::PartFault;
use std::alloc::{AllocError, Global};

/// How a run ended. Files are numbered: 0 the manifest, then the tables in its order from 1, 257 the query
/// file, 258 the trace that is taken again, and 259 the owner file.
#[derive(Clone, Copy, Debug, PartialEq, Eq)]
pub enum Status {
    /// All went well: each query was answered, and all replies were put whole.
    Done,
    /// All went well, but some queries are refused: their lines tell why. All replies were put whole.
    SomeRefused,
    /// The words are outside the form, from the one at this place on. Places count from 0. It is the number of
    /// words where some are missing.
    Usage {
        word: u32,
    },
    /// A file's bytes break the rules of manifests and tables. The row is the line of the manifest or the
    /// record of the table, and both count from 1, like columns; a 0 stands for the whole file or record. The code
    /// is 30 for the manifest, 31 for a header, 32 for a cell, 33 for a key that stands twice and 34 for an edge's end
    /// that is no vertex. The cell is 20 to 25 for the code 32, and else 0.
    TableFault {
        file: u32,
        row: u32,
        column: u32,
        code: u32,
        cell: u32,
    },
    /// The owner file breaks its rules so. Running out of memory isn't told in this way.
    OwnerFault(PartFault),
    /// The store failed at this file.
    ReadFault {
        file: u32,
    },
    /// The store has no such file.
    Missing {
        file: u32,
    },
    /// The sink failed. It took a front of the replies, which may be empty.
    WriteFault,
    /// Memory ran out, and nothing was put.
    NoMemory,
    /// This quantity of the input is above this number.
    Limit {
        quantity: Quantity,
        number: u64,
    },
    /// The trace can't be taken again. The code is 60 for a line that isn't of the form that its place asks for, 61 for an
    /// event of which a guard fails, and 62 where the text ends, or says `finished`, before the run is. The line counts from
    /// 1 and is 0 for the code 62. The guard is 1 to 17 for the code 61, and else 0.
    ReplayRefused {
        line: u32,
        code: u32,
        guard: u32,
    },
    /// The words ask for what isn't built yet. It is 1000: one of the commands `trace`, `replay` and `gen`, or an option
    /// `--lanes` or `--pool`.
    NotBuilt {
        what: u32,
    },
}

fn quantity_name(quantity: Quantity) -> &'static str
    ensures { result.now ≡ quantity_name quantity }
{
    match quantity {
        Quantity::FileBytes => "FileBytes",
        Quantity::TotalBytes => "TotalBytes",
        Quantity::Tables => "Tables",
        Quantity::Vertices => "Vertices",
        Quantity::Edges => "Edges",
        Quantity::Cells => "Cells",
        Quantity::Queries => "Queries",
    }
}

// The line of a fault of the owner file: its number, and the line and the key that it names, or 0.
fn owners_refused(alloc: Global, code: u32, line: u32, key: i64) -> Result<String, AllocError>
    ensures { IfOk result (λ text. string_bytes text ≡ owners_refused code line key) }
{
    format!(in alloc; "adfs: owners refused {code} line {line} key {key}\n")
}

fn no_memory(alloc: Global) -> Result<String, AllocError>
    ensures { IfOk result (λ text. string_bytes text ≡ no_memory_line) }
{
    String::from_str(alloc, "adfs: no memory\n")
}

fn owner_line(alloc: Global, fault: PartFault) -> Result<String, AllocError>
    ensures { IfOk result (λ text. string_bytes text ≡ owner_line fault) }
{
    match fault {
        PartFault::OwnerOutOfRange(line) => owners_refused(alloc, 50, line, 0),
        PartFault::OwnerMissing(key) => owners_refused(alloc, 51, 0, key),
        PartFault::BadOwnerLine(line) => owners_refused(alloc, 53, line, 0),
        PartFault::NoMemory => no_memory(alloc),
    }
}

impl Status {
    /// The number with which the program ends: 0 `Done`, 1 `SomeRefused`, 2 `Usage`, 3 `TableFault` and
    /// `OwnerFault`, 4 `ReadFault`, 5 `Missing`, 6 `WriteFault`, 7 `NoMemory`, 8 `Limit`, 9 `ReplayRefused`,
    /// 10 `NotBuilt`.
    pub fn number(&self) -> u32
        ensures { result ≡ status_number self.now }
    {
        match self {
            Status::Done => 0,
            Status::SomeRefused => 1,
            Status::Usage { .. } => 2,
            Status::TableFault { .. } | Status::OwnerFault(_) => 3,
            Status::ReadFault { .. } => 4,
            Status::Missing { .. } => 5,
            Status::WriteFault => 6,
            Status::NoMemory => 7,
            Status::Limit { .. } => 8,
            Status::ReplayRefused { .. } => 9,
            Status::NotBuilt { .. } => 10,
        }
    }

    // The line of the status.
    fn line(&self, alloc: Global) -> Result<String, AllocError>
        ensures { IfOk result (λ line. string_bytes line ≡ status_line self.now) }
    {
        match self {
            Status::Done | Status::SomeRefused => Ok(String::new(alloc)),
            Status::Usage { word } => format!(in alloc; "adfs: word {word} is outside the form\n"),
            Status::TableFault {
                file,
                row,
                column,
                code,
                cell,
            } => {
                format!(in alloc;
                    "adfs: file {file} record {row} column {column} refused {code} cell {cell}\n"
                )
            }
            Status::OwnerFault(fault) => owner_line(alloc, *fault),
            Status::ReadFault { file } => format!(in alloc; "adfs: file {file} read fault\n"),
            Status::Missing { file } => format!(in alloc; "adfs: file {file} missing\n"),
            Status::WriteFault => String::from_str(alloc, "adfs: write fault\n"),
            Status::NoMemory => no_memory(alloc),
            Status::Limit { quantity, number } => {
                let name = quantity_name(*quantity);
                format!(in alloc; "adfs: limit {name} {number}\n")
            }
            Status::ReplayRefused { line, code, guard } => {
                format!(in alloc; "adfs: line {line} refused {code} guard {guard}\n")
            }
            Status::NotBuilt { what } => format!(in alloc; "adfs: not built {what}\n"),
        }
    }

    /// Appends the status's line for a user, with a line feed, and nothing for `Done` and `SomeRefused`. After
    /// `NoMemory` `out` is as before.
    pub fn put_line(&self, alloc: Global, out: &mut Vec<u8>) -> Result<(), NoMemory>
        ensures ok { OnOk result (out.new.items ≡ out.old.items ++ status_line self.now) }
        ensures err { OnErr result (out.new.items ≡ out.old.items) }
    {
        let line = self.line(alloc)?;
        out.extend_from_slice(line.as_bytes())?;
        Ok(())
    }
}
