//! The numbers at which quantities of the input are limited.
ghost use Rattle.std.specs.Prelude.{◌≡◌};
ghost use Rattle.run_status.specs.Faults as spec;

use crate::status::Status;
use adfs_base::{EDGES, FILE_BYTES, PROPERTY_CELLS, QUERIES, TABLE_BYTES, TABLES, VERTICES};
use graph_tables::Quantity;

// The number at which a quantity is limited.
fn limit_of(quantity: Quantity) -> u64
    ensures { result ≡ spec.limit_of quantity }
{
    match quantity {
        Quantity::FileBytes => FILE_BYTES,
        Quantity::TotalBytes => TABLE_BYTES,
        Quantity::Tables => TABLES as u64,
        Quantity::Vertices => VERTICES as u64,
        Quantity::Edges => EDGES as u64,
        Quantity::Cells => PROPERTY_CELLS,
        Quantity::Queries => QUERIES as u64,
    }
}

/// The status of a quantity above its limit.
pub fn passed(quantity: Quantity) -> Status
    ensures { result ≡ Status.Limit quantity (spec.limit_of quantity) }
{
    Status::Limit {
        quantity,
        number: limit_of(quantity),
    }
}
