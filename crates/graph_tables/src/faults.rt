//! What may be wrong with a manifest or a table.
ghost use Rattle.std.specs.Prelude.{◌≡◌};
ghost use Rattle.graph_tables.specs.Faults.{fault_at, fault_of};

use adfs_base::NoMemory;
use std::alloc::{AllocError, AllocFailed};
use value_text::CellFault;

/// A quantity that has a limit.
#[derive(Clone, Copy, Debug, PartialEq, Eq)]
pub enum Quantity {
    /// The bytes of one file: 268,435,456.
    FileBytes,
    /// The bytes of all tables together: 1,073,741,824.
    TotalBytes,
    /// The table lines of a manifest: 256.
    Tables,
    /// Vertices: 4,194,304.
    Vertices,
    /// Edges: 16,777,216.
    Edges,
    /// Property cells, those that say null among them: 67,108,864.
    Cells,
    /// The queries of a file: 4,096.
    Queries,
}

/// What is wrong with a manifest or a table.
#[derive(Clone, Copy, Debug, PartialEq, Eq)]
pub enum TableKind {
    /// A line of the manifest breaks its form or its order.
    BadManifest,
    /// A cell of the header is no name and type, isn't the key that must stand there, or breaks with the
    /// headers before it.
    BadHeader,
    /// A cell doesn't say a value of its column's type, or the record has another number of cells.
    BadCell(CellFault),
    /// Another element of this kind has the key.
    DoubleKey,
    /// No vertex has the key of an edge's end.
    NoSuchVertex,
    /// The file is longer than a file may be.
    TooLong,
    /// A limit is passed.
    TooMany(Quantity),
    /// The store has no file of that name.
    Missing,
    /// The store failed to load the file.
    ReadFault,
    /// Memory ran out.
    NoMemory,
}

/// A fault and its place.
///
/// File 0 is the manifest, and the tables are counted from 1 in its order. The row is the number of a line
/// of the manifest or of a record of a table, from 1, the header included. Columns are counted from 1. Row
/// and column are 0 where the fault is of a whole file, the column alone where it is of a whole line or record, and
/// the file too for `NoMemory` and too many tables.
#[derive(Clone, Copy, Debug, PartialEq, Eq)]
pub struct TableFault {
    pub file: u32,
    pub row: u32,
    pub column: u32,
    pub kind: TableKind,
}

/// A record of a table.
#[derive(Clone, Copy)]
pub struct Place {
    pub file: u32,
    pub row: u32,
}

impl Place {
    /// A fault in a column of the record; column 0 stands for the whole record.
    pub fn fault(self, column: u32, kind: TableKind) -> TableFault
        ensures { result ≡ fault_at self column kind }
    {
        TableFault {
            file: self.file,
            row: self.row,
            column,
            kind,
        }
    }
}

/// A fault of a whole file.
pub fn file_fault(file: u32, kind: TableKind) -> TableFault
    ensures { result ≡ fault_of file kind }
{
    TableFault {
        file,
        row: 0,
        column: 0,
        kind,
    }
}

impl From<AllocError> for TableFault {
    ghost use Rattle.std.specs.Prelude.{◌≡◌};
    ghost use Rattle.graph_tables.specs.Faults.{fault_of};
    ghost use Rattle.graph_tables.specs.declared.faults.TableKind.TheVariants as kind;

    ghost from_gives = { λ _ e. e ≡ fault_of 0 kind.NoMemory };

    fn from(_: AllocError) -> TableFault {
        file_fault(0, TableKind::NoMemory)
    }
}

impl<T: Drop> From<AllocFailed<T>> for TableFault {
    ghost use Rattle.std.specs.Prelude.{◌≡◌};
    ghost use Rattle.graph_tables.specs.Faults.{fault_of};
    ghost use Rattle.graph_tables.specs.declared.faults.TableKind.TheVariants as kind;

    ghost from_gives = { λ _ e. e ≡ fault_of 0 kind.NoMemory };

    fn from(_: AllocFailed<T>) -> TableFault {
        file_fault(0, TableKind::NoMemory)
    }
}

impl From<NoMemory> for TableFault {
    ghost use Rattle.std.specs.Prelude.{◌≡◌};
    ghost use Rattle.graph_tables.specs.Faults.{fault_of};
    ghost use Rattle.graph_tables.specs.declared.faults.TableKind.TheVariants as kind;

    ghost from_gives = { λ _ e. e ≡ fault_of 0 kind.NoMemory };

    fn from(_: NoMemory) -> TableFault {
        file_fault(0, TableKind::NoMemory)
    }
}
