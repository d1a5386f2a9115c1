//! A table's header.
ghost use Rattle.std.specs.Prelude.{◌≡◌, ◌<◌, ◌≤◌, ◌+◌, ◌-◌, ◌^◌, drop, length, position, slice_get, IfOk, MatchBool, MatchOption, None, Some};
ghost use Rattle.std.specs.List.{after_first, before_first};
ghost use Rattle.std.specs.Option.{option_map};
ghost use Rattle.csv.specs.Records.{fields_of};
ghost use Rattle.graph_tables.specs.Faults.{Gives};
ghost use Rattle.graph_tables.specs.Headers as header;
ghost use Rattle.graph_tables.specs.Headers.{columns_from, heading_of, is_colon, key_columns, keys_first, with_column};
ghost use Rattle.graph_tables.specs.Properties.{kind_eq, placed};

use crate::element_kind::{ElementKind, key_count};
use crate::faults::{Place, TableFault, TableKind};
use crate::names::is_name;
use crate::properties::Properties;
use crate::record_cells::{cell, find_cell};
use adfs_base::{Kind, NoMemory};
use csv::ByteRecord;
use element_store::Columns;
use std::alloc::Global;
use text_lines::after;

/// A cell of a header.
#[derive(Clone, Copy)]
struct HeaderCell<'a> {
    name: &'a [u8],
    kind: Kind,
}

fn kind_named(word: &[u8]) -> Option<Kind>
    ensures { result ≡ header.kind_named word.now }
{
    if word == b"int".as_slice() {
        Some(Kind::Int)
    } else if word == b"text".as_slice() {
        Some(Kind::Text)
    } else if word == b"bool".as_slice() {
        Some(Kind::Bool)
    } else if word == b"date".as_slice() {
        Some(Kind::Date)
    } else {
        None
    }
}

fn colon_at(cell: &[u8]) -> Option<usize>
    ensures { result ≡ position is_colon cell.now }
{
    cell.iter().position(|b| *b == b':')
}

// The parts of a cell round its first colon.
fn parts(cell: &[u8]) -> (&[u8], &[u8])
    ensures name { result.0.now ≡ before_first is_colon cell.now }
    ensures word { result.1.now ≡ after_first is_colon cell.now }
{
    match colon_at(cell) {
        Some(place) => (&cell[..place], after(cell, place)),
        None => (cell, &[]),
    }
}

fn header_cell(cell: &[u8]) -> Option<HeaderCell<'_>>
    ensures { option_map (λ c. record { name = c.name.now; type = c.kind }) result ≡ header.header_cell cell.now }
{
    let (name, word) = parts(cell);
    if !is_name(name) {
        return None;
    }
    match kind_named(word) {
        Some(kind) => Some(HeaderCell { name, kind }),
        None => None,
    }
}

fn is_same_kind(a: Kind, b: Kind) -> bool
    ensures { result ≡ kind_eq a b }
{
    a == b
}

fn is_key_name(of: ElementKind, name: &[u8]) -> bool
    ensures { result ≡ header.is_key_name of name.now }
{
    match of {
        ElementKind::Vertex => name == b"id".as_slice(),
        ElementKind::Edge => {
            name == b"id".as_slice() || name == b"source".as_slice() || name == b"target".as_slice()
        }
    }
}

fn is_key_column(name: &[u8], cell: &[u8]) -> bool
    ensures { result ≡ header.is_key_column name.now (header.header_cell cell.now) }
{
    match header_cell(cell) {
        Some(column) => column.name == name && is_same_kind(column.kind, Kind::Int),
        None => false,
    }
}

// Whether the key of this name stands in its column.
fn key_column(at: Place, column: u32, name: &[u8], row: &ByteRecord) -> Result<(), TableFault>
    requires { 1 ≤ column }
    ensures { Gives (λ _. tt) result (header.key_column at column name.now (slice_get (fields_of row.now) (column - 1))) }
{
    match find_cell(row, column as usize - 1) {
        Some(cell) if is_key_column(name, cell) => Ok(()),
        _ => Err(at.fault(column, TableKind::BadHeader)),
    }
}

fn check_keys(of: ElementKind, at: Place, row: &ByteRecord) -> Result<(), TableFault>
    ensures { Gives (λ _. tt) result (keys_first of at (fields_of row.now)) }
{
    match of {
        ElementKind::Vertex => key_column(at, 1, b"id", row),
        ElementKind::Edge => {
            key_column(at, 1, b"id", row)?;
            key_column(at, 2, b"source", row)?;
            key_column(at, 3, b"target", row)
        }
    }
}

// The number of a property, which is added where its name is new. None: its name has another kind.
fn place_property(
    alloc: Global,
    cell: HeaderCell<'_>,
    properties: &mut Properties,
) -> Result<Option<u32>, NoMemory>
    requires { length properties.old < 2 ^ 32 - 1 }
    ensures placed { IfOk result (λ found. MatchOption found
        (placed properties.old (record { name = cell.entry.name.now; type = cell.entry.kind }) ≡ None)
        (λ number. placed properties.old (record { name = cell.entry.name.now; type = cell.entry.kind }) ≡ Some (number, properties.new))) }
    ensures room { length properties.new ≤ length properties.old + 1 }
{
    match properties.find(cell.name) {
        Some((number, kind)) if is_same_kind(kind, cell.kind) => Ok(Some(number)),
        Some(_) => Ok(None),
        None => {
            let number = properties.len();
            properties.push(alloc, cell.name, cell.kind)?;
            Ok(Some(number))
        }
    }
}

// Adds the column of a property. False: the cell breaks the rules of headers.
fn add_column(
    alloc: Global,
    of: ElementKind,
    cell: &[u8],
    properties: &mut Properties,
    columns: &mut Columns,
) -> Result<bool, NoMemory>
    requires { length properties.old < 2 ^ 32 - 1 }
    ensures added { IfOk result (λ good. MatchBool good
        (with_column of (record { properties = properties.old; columns = columns.old }) (header.header_cell cell.now) ≡ Some (record { properties = properties.new; columns = columns.new }))
        (with_column of (record { properties = properties.old; columns = columns.old }) (header.header_cell cell.now) ≡ None)) }
    ensures room { length properties.new ≤ length properties.old + 1 }
{
    let Some(found) = header_cell(cell) else {
        return Ok(false);
    };
    if is_key_name(of, found.name) {
        return Ok(false);
    }
    let Some(number) = place_property(alloc, found, properties)? else {
        return Ok(false);
    };
    if columns.place_of(number).is_some() {
        return Ok(false);
    }
    columns.push(number, found.kind)?;
    Ok(true)
}

// Adds the columns of the cells after the keys.
fn take_columns(
    alloc: Global,
    of: ElementKind,
    at: Place,
    row: &ByteRecord,
    properties: &mut Properties,
    columns: &mut Columns,
) -> Result<(), TableFault>
    requires { length properties.old + length (fields_of row.now) < 2 ^ 32 - 1 }
    ensures columns { Gives (λ _. record { properties = properties.new; columns = columns.new }) result
        (columns_from of at (key_columns of + 1) (drop (key_columns of) (fields_of row.now)) (record { properties = properties.old; columns = columns.old })) }
    ensures room { length properties.new ≤ length properties.old + length (fields_of row.now) }
{
    let keys = key_count(of);
    for place in keys..row.len() {
        if !add_column(alloc, of, cell(row, place), properties, columns)? {
            return Err(at.fault(place as u32 + 1, TableKind::BadHeader));
        }
    }
    Ok(())
}

/// The columns of a header, whose properties are added to those of the tables before it.
pub fn heading(
    alloc: Global,
    of: ElementKind,
    at: Place,
    row: &ByteRecord,
    properties: &mut Properties,
) -> Result<Columns, TableFault>
    requires { length properties.old + length (fields_of row.now) < 2 ^ 32 - 1 }
    ensures columns { Gives (λ columns. record { properties = properties.new; columns = columns }) result (heading_of of at properties.old (fields_of row.now)) }
    ensures room { length properties.new ≤ length properties.old + length (fields_of row.now) }
{
    check_keys(of, at, row)?;
    let mut columns = Columns::new(alloc);
    take_columns(alloc, of, at, row, properties, &mut columns)?;
    Ok(columns)
}
