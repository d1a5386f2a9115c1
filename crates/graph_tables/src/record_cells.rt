//! The cells of a record, by their places.
ghost use Rattle.std.specs.Prelude.{◌≡◌, slice_get};
ghost use Rattle.std.specs.Option.{option_copied};
ghost use Rattle.csv.specs.Records.{fields_of};
ghost use Rattle.graph_tables.specs.Headers.{cell_at};

use csv::ByteRecord;

/// The cell of a record at a place, if it has one.
pub(crate) fn find_cell(row: &ByteRecord, place: usize) -> Option<&[u8]>
    ensures { option_copied result ≡ slice_get (fields_of row.now) place }
{
    row.get(place)
}

/// The cell of a record at a place; where it has none, an empty one.
pub fn cell(row: &ByteRecord, place: usize) -> &[u8]
    ensures { result.now ≡ cell_at (fields_of row.now) place }
{
    match find_cell(row, place) {
        Some(cell) => cell,
        None => &[],
    }
}
