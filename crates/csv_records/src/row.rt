//! A record whose cells lie where its table has them.
ghost use Rattle.std.specs.Prelude.{◌≡◌, ◌++◌, ◌∷◌, [], OnOk, length, slice_index_or};
ghost use Rattle.csv.specs.Records.{fields_of, partial_of};
ghost use Rattle.csv_records.specs.Rows.{IsThere, bytes_of};

use csv::ByteRecord;
use std::alloc::{AllocError, Global};
use std::marker::Model;

/// Where a cell's bytes are.
#[derive(Clone, Copy)]
pub(crate) enum Cell<'a> {
    /// These of the table.
    Here(&'a [u8]),
    /// Those that were put together, from the first place on, up to the second.
    Made(usize, usize),
}

/// A record of a table. Its cells lie where the table has them, and only those whose bytes don't stand side by side
/// there, as where a quote is doubled, are copied.
///
/// A contract sees the list of its cells.
#[derive(Drop)]
pub struct Row<'a> {
    cells: Vec<Cell<'a>>,
    // The bytes of the cells that were put together.
    made: Vec<u8>,
}

impl<'a> Model for Row<'a> {
    ghost use Rattle.std.specs.Prelude.{List, ℕ, length};
    ghost use Rattle.csv_records.specs.Rows.{AreThere, cells_of};

    ghost Value = { List (List ℕ) };

    ghost view = { λ r. cells_of r.made.items r.cells.items };

    ghost invariant = { λ r. AreThere (length r.made.items) r.cells.items };
}

// The bytes of a cell.
fn bytes<'a>(made: &'a [u8], cell: Cell<'a>) -> &'a [u8]
    requires { IsThere (length made.now) cell }
    ensures { result.now ≡ bytes_of made.now cell.entry }
{
    match cell {
        Cell::Here(bytes) => bytes,
        Cell::Made(first, end) => &made[first..end],
    }
}

impl<'a> Row<'a> {
    /// A record without cells. It takes no memory yet.
    pub fn new(alloc: Global) -> Row<'a>
        ensures { result ≡ [] }
    {
        Row {
            cells: Vec::new(alloc),
            made: Vec::new(alloc),
        }
    }

    /// How many cells there are.
    pub fn len(&self) -> usize
        ensures { result ≡ length self.now }
    {
        self.cells.len()
    }

    /// The cell at a place; where there is none, an empty one.
    pub fn cell(&self, place: usize) -> &[u8]
        ensures { result.now ≡ slice_index_or self.now place [] }
    {
        match self.cells.get(place) {
            Some(cell) => bytes(&self.made, *cell),
            None => &[],
        }
    }

    /// Adds copies of the cells to a record that has its bytes for itself.
    ///
    /// After `AllocError` some of them may be there.
    pub fn copy_to(&self, copy: &mut ByteRecord) -> Result<(), AllocError>
        requires { partial_of copy.old ≡ [] }
        ensures { OnOk result (fields_of copy.new ≡ fields_of copy.old ++ self.now) }
    {
        for place in 0..self.len() {
            copy.push_field(self.cell(place))?;
        }
        Ok(())
    }

    /// Forgets the cells.
    pub(crate) fn clear(&mut self)
        ensures { self.new ≡ [] }
    {
        self.cells.clear();
        self.made.clear();
    }

    /// Adds a cell that lies in the table.
    pub(crate) fn push(&mut self, cell: &'a [u8]) -> Result<(), AllocError>
        ensures { OnOk result (self.new ≡ self.old ++ cell.now ∷ []) }
    {
        self.cells.push(Cell::Here(cell))?;
        Ok(())
    }

    /// Adds a copy of a cell that was put together.
    pub(crate) fn push_copy(&mut self, cell: &[u8]) -> Result<(), AllocError>
        ensures { OnOk result (self.new ≡ self.old ++ cell.now ∷ []) }
    {
        let first = self.made.len();
        self.made.extend_from_slice(cell)?;
        self.cells.push(Cell::Made(first, self.made.len()))?;
        Ok(())
    }
}
