//! The records of a table.
ghost use Rattle.std.specs.Prelude.{◌≡◌, ◌<◌, ◌≤◌, ◌+◌, ◌-◌, ◌^◌, ◌++◌, ◌∷◌, [], IfOk, IfErr, OnOk, length, None, Some};
ghost use Rattle.element_store.specs.Columns.{HaveKinds, named};
ghost use Rattle.element_store.specs.Elements.{cells_in, number_of};
ghost use Rattle.element_store.specs.Words.{HasKind};
ghost use Rattle.value_text.specs.Cells.{cell_value};
ghost use Rattle.value_text.specs.Numbers.{int_cell};
ghost use Rattle.value_text.specs.Texts.{Kept};
ghost use Rattle.value_text.specs.Valid.{IsValid};
ghost use Rattle.graph_tables.specs.Faults.{Gives, fault_of};
ghost use Rattle.graph_tables.specs.Headers.{key_columns};
ghost use Rattle.graph_tables.specs.Loading.{IsSound, KeepsTables, filled_of, graph_of, tables_in};
ghost use Rattle.graph_tables.specs.Graph.{cells_made};
ghost use Rattle.graph_tables.specs.Manifest.{most_tables};
ghost use Rattle.graph_tables.specs.Limits.{most_cells, most_edges, most_vertices};
ghost use Rattle.graph_loading.specs.Rows as rows;
ghost use Rattle.graph_loading.specs.Rows.{AreRead, admitted, edge_admitted, edge_record, ends_of, in_column, most_of, quantity_of, row_record, rows_from, values_of, vertex_admitted, vertex_record};

use adfs_base::{EDGES, Kind, PROPERTY_CELLS, VERTICES, Value};
use csv_records::{Records, Row};
use element_store::{Columns, Elements};
use graph_tables::{
    ElementKind, Ends, Loading, Place, Quantity, TableFault, TableKind, file_fault, key_count,
};
use std::alloc::Global;
use value_text::{CellFault, Texts, read_key, read_value};

fn quantity(of: ElementKind) -> Quantity
    ensures { result ≡ quantity_of of }
{
    match of {
        ElementKind::Vertex => Quantity::Vertices,
        ElementKind::Edge => Quantity::Edges,
    }
}

fn most(of: ElementKind) -> u32
    ensures { result ≡ most_of of }
{
    match of {
        ElementKind::Vertex => VERTICES,
        ElementKind::Edge => EDGES,
    }
}

// Whether there is room for one more element and its cells, and the record has a cell for each column.
fn admit(
    of: ElementKind,
    at: Place,
    made: u32,
    cells: u64,
    columns: usize,
    width: usize,
) -> Result<(), TableFault>
    requires cells { cells ≤ most_cells }
    requires columns { columns < 2 ^ 63 }
    ensures { Gives (λ _. tt) result (admitted of at made cells columns width) }
{
    if made >= most(of) {
        return Err(at.fault(0, TableKind::TooMany(quantity(of))));
    }
    if cells + columns as u64 > PROPERTY_CELLS {
        return Err(at.fault(0, TableKind::TooMany(Quantity::Cells)));
    }
    if width != key_count(of) + columns {
        return Err(at.fault(0, TableKind::BadCell(CellFault::WrongCount)));
    }
    Ok(())
}

fn key_in(at: Place, column: u32, cell: &[u8]) -> Result<i64, TableFault>
    ensures { Gives (λ key. key) result (rows.key_in at column (int_cell cell.now)) }
{
    match read_key(cell) {
        Ok(key) => Ok(key),
        Err(fault) => Err(at.fault(column, TableKind::BadCell(fault))),
    }
}

// A key that no element of its kind has yet.
fn new_key(at: Place, elements: &Elements, cell: &[u8]) -> Result<i64, TableFault>
    requires { length elements.now.elements < 2 ^ 32 }
    ensures key { Gives (λ key. key) result (rows.new_key at elements.now.elements cell.now) }
    ensures fresh { IfOk result (λ key. number_of elements.now.elements key ≡ None) }
{
    let key = key_in(at, 1, cell)?;
    if elements.number_of(key).is_some() {
        return Err(at.fault(1, TableKind::DoubleKey));
    }
    Ok(key)
}

// The number of the vertex whose key stands in a cell.
fn end_at(at: Place, column: u32, vertices: &Elements, cell: &[u8]) -> Result<u32, TableFault>
    requires { length vertices.now.elements < 2 ^ 32 }
    ensures number { Gives (λ number. number) result (rows.end_at at column vertices.now.elements cell.now) }
    ensures within { IfOk result (λ number. number < length vertices.now.elements) }
{
    let key = key_in(at, column, cell)?;
    match vertices.number_of(key) {
        Some(number) => Ok(number),
        None => Err(at.fault(column, TableKind::NoSuchVertex)),
    }
}

fn read_ends(at: Place, vertices: &Elements, row: &Row<'_>) -> Result<Ends, TableFault>
    requires { length vertices.now.elements < 2 ^ 32 }
    ensures ends { Gives (λ ends. (ends.source, ends.target)) result (ends_of at vertices.now.elements row.now) }
    ensures source { IfOk result (λ ends. ends.source < length vertices.now.elements) }
    ensures target { IfOk result (λ ends. ends.target < length vertices.now.elements) }
{
    let source = end_at(at, 2, vertices, row.cell(1))?;
    let target = end_at(at, 3, vertices, row.cell(2))?;
    Ok(Ends { source, target })
}

// The value of a cell in its column.
fn value_in(
    at: Place,
    column: u32,
    kind: Kind,
    cell: &[u8],
    texts: &mut Texts,
) -> Result<Value, TableFault>
    requires { length texts.old < 2 ^ 32 - 1 }
    ensures value { Gives (λ v. (v, texts.new)) result (in_column at column (cell_value kind cell.now texts.old)) }
    ensures kind { IfOk result (HasKind kind) }
    ensures valid { IfOk result (IsValid texts.new) }
    ensures kept { Kept texts.old texts.new }
    ensures room { length texts.new ≤ length texts.old + 1 }
{
    match read_value(kind, cell, texts) {
        Ok(value) => Ok(value),
        Err(CellFault::NoMemory) => Err(file_fault(0, TableKind::NoMemory)),
        Err(fault) => Err(at.fault(column, TableKind::BadCell(fault))),
    }
}

// Reads the values of a record's properties into `values`.
fn read_values(
    of: ElementKind,
    at: Place,
    columns: &Columns,
    row: &Row<'_>,
    texts: &mut Texts,
    values: &mut Vec<Value>,
) -> Result<(), TableFault>
    requires count { length row.now ≡ key_columns of + length columns.now }
    requires few { length columns.now ≤ most_cells }
    requires room { length texts.old + length columns.now < 2 ^ 32 - 1 }
    ensures values { Gives (λ _. (values.new.items, texts.new)) result (values_of of at columns.now row.now texts.old) }
    ensures read { OnOk result (AreRead columns.now texts.old texts.new values.new.items) }
{
    let keys = key_count(of);
    values.clear();
    for i in 0..columns.len() {
        let (_, kind) = columns.get(i);
        let value = value_in(at, (keys + i) as u32 + 1, kind, row.cell(keys + i), texts)?;
        values.push(value)?;
    }
    Ok(())
}

// Adds the vertex of a record for which there is room.
fn add_vertex(
    at: Place,
    row: &Row<'_>,
    values: &mut Vec<Value>,
    loading: &mut Loading,
) -> Result<(), TableFault>
    requires sound { IsSound loading.old }
    requires table { 0 < loading.old.vertices.tables }
    requires tables { tables_in loading.old ≤ most_tables }
    requires count { length row.now ≡ 1 + length loading.old.vertices.columns }
    requires vertices { length loading.old.vertices.elements < most_vertices }
    requires cells { cells_made (graph_of loading.old) + length loading.old.vertices.columns ≤ most_cells }
    ensures gives { Gives (λ _. graph_of loading.new) result (vertex_admitted at loading.old.vertices.label loading.old.vertices.columns row.now (graph_of loading.old)) }
    ensures sound { OnOk result (IsSound loading.new) }
    ensures keeps { OnOk result (KeepsTables loading.old loading.new) }
{
    let key = new_key(at, &loading.vertices, row.cell(0))?;
    let columns = loading.vertices.columns();
    read_values(
        ElementKind::Vertex,
        at,
        columns,
        row,
        &mut loading.texts,
        values,
    )?;
    loading.vertices.add(key, values)?;
    Ok(())
}

// Adds the edge of a record for which there is room.
fn add_edge(
    at: Place,
    row: &Row<'_>,
    values: &mut Vec<Value>,
    loading: &mut Loading,
) -> Result<(), TableFault>
    requires sound { IsSound loading.old }
    requires table { 0 < loading.old.edges.tables }
    requires tables { tables_in loading.old ≤ most_tables }
    requires count { length row.now ≡ 3 + length loading.old.edges.columns }
    requires edges { length loading.old.edges.elements < most_edges }
    requires cells { cells_made (graph_of loading.old) + length loading.old.edges.columns ≤ most_cells }
    ensures gives { Gives (λ _. graph_of loading.new) result (edge_admitted at loading.old.edges.label loading.old.edges.columns row.now (graph_of loading.old)) }
    ensures sound { OnOk result (IsSound loading.new) }
    ensures keeps { OnOk result (KeepsTables loading.old loading.new) }
{
    let key = new_key(at, &loading.edges, row.cell(0))?;
    let ends = read_ends(at, &loading.vertices, row)?;
    let columns = loading.edges.columns();
    read_values(
        ElementKind::Edge,
        at,
        columns,
        row,
        &mut loading.texts,
        values,
    )?;
    push_edge(key, ends, values, loading)?;
    Ok(())
}

// Adds an edge to its table.
fn push_edge(
    key: i64,
    ends: Ends,
    values: &[Value],
    loading: &mut Loading,
) -> Result<(), TableFault>
    requires table { 0 < loading.old.edges.tables }
    requires fresh { number_of loading.old.edges.elements key ≡ None }
    requires kinds { HaveKinds loading.old.edges.columns values.now }
    requires few { length loading.old.edges.elements < most_edges }
    requires room { cells_in loading.old.edges.elements + length values.now < 2 ^ 64 }
    ensures memory { IfErr result (λ e. e ≡ fault_of 0 TableKind.NoMemory) }
    ensures edges { OnOk result (loading.new.edges ≡ record {
      elements = loading.old.edges.elements ++ record { key = key; label = loading.old.edges.label; values = named loading.old.edges.columns values.now } ∷ [];
      tables = loading.old.edges.tables;
      label = loading.old.edges.label;
      columns = loading.old.edges.columns;
    }) }
    ensures ends { OnOk result (loading.new.ends.items ≡ loading.old.ends.items ++ ends ∷ []) }
    ensures vertices { loading.new.vertices ≡ loading.old.vertices }
    ensures texts { loading.new.texts ≡ loading.old.texts }
    ensures vertex_properties { loading.new.vertex_properties ≡ loading.old.vertex_properties }
    ensures edge_properties { loading.new.edge_properties ≡ loading.old.edge_properties }
{
    loading.ends.push(ends)?;
    loading.edges.add(key, values)?;
    Ok(())
}

// How many property cells there are.
fn cells_of(loading: &Loading) -> u64
    requires { IsSound loading.now }
    ensures { result ≡ cells_made (graph_of loading.now) }
{
    loading.vertices.cells() + loading.edges.cells()
}

// Adds the vertex of a record.
fn take_vertex(
    at: Place,
    row: &Row<'_>,
    values: &mut Vec<Value>,
    loading: &mut Loading,
) -> Result<(), TableFault>
    requires sound { IsSound loading.old }
    requires table { 0 < loading.old.vertices.tables }
    requires tables { tables_in loading.old ≤ most_tables }
    ensures gives { Gives (λ _. graph_of loading.new) result (vertex_record at loading.old.vertices.label loading.old.vertices.columns row.now (graph_of loading.old)) }
    ensures sound { OnOk result (IsSound loading.new) }
    ensures keeps { OnOk result (KeepsTables loading.old loading.new) }
{
    let cells = cells_of(loading);
    let columns = loading.vertices.columns().len();
    admit(
        ElementKind::Vertex,
        at,
        loading.vertices.len(),
        cells,
        columns,
        row.len(),
    )?;
    add_vertex(at, row, values, loading)
}

// Adds the edge of a record.
fn take_edge(
    at: Place,
    row: &Row<'_>,
    values: &mut Vec<Value>,
    loading: &mut Loading,
) -> Result<(), TableFault>
    requires sound { IsSound loading.old }
    requires table { 0 < loading.old.edges.tables }
    requires tables { tables_in loading.old ≤ most_tables }
    ensures gives { Gives (λ _. graph_of loading.new) result (edge_record at loading.old.edges.label loading.old.edges.columns row.now (graph_of loading.old)) }
    ensures sound { OnOk result (IsSound loading.new) }
    ensures keeps { OnOk result (KeepsTables loading.old loading.new) }
{
    let cells = cells_of(loading);
    let columns = loading.edges.columns().len();
    admit(
        ElementKind::Edge,
        at,
        loading.edges.len(),
        cells,
        columns,
        row.len(),
    )?;
    add_edge(at, row, values, loading)
}

// Adds the element of a record.
fn take_record(
    of: ElementKind,
    at: Place,
    row: &Row<'_>,
    values: &mut Vec<Value>,
    loading: &mut Loading,
) -> Result<(), TableFault>
    requires sound { IsSound loading.old }
    requires table { 0 < (filled_of of loading.old).tables }
    requires tables { tables_in loading.old ≤ most_tables }
    ensures gives { Gives (λ _. graph_of loading.new) result (row_record of at (filled_of of loading.old).label (filled_of of loading.old).columns row.now (graph_of loading.old)) }
    ensures sound { OnOk result (IsSound loading.new) }
    ensures keeps { OnOk result (KeepsTables loading.old loading.new) }
{
    match of {
        ElementKind::Vertex => take_vertex(at, row, values, loading),
        ElementKind::Edge => take_edge(at, row, values, loading),
    }
}

// Adds the elements of the records that are left. `row` and `values` are where each is read to.
fn take_each<'a>(
    of: ElementKind,
    file: u32,
    records: &mut Records<'a>,
    row: &mut Row<'a>,
    values: &mut Vec<Value>,
    loading: &mut Loading,
) -> Result<(), TableFault>
    requires sound { IsSound loading.old }
    requires table { 0 < (filled_of of loading.old).tables }
    requires tables { tables_in loading.old ≤ most_tables }
    requires short { length records.old + 2 < 2 ^ 32 }
    ensures gives { Gives (λ _. graph_of loading.new) result (rows_from of file 2 (filled_of of loading.old).label (filled_of of loading.old).columns records.old (graph_of loading.old)) }
    ensures sound { OnOk result (IsSound loading.new) }
    ensures keeps { OnOk result (KeepsTables loading.old loading.new) }
{
    let mut number: u32 = 2;
    'records: while records.next(row)? {
        take_record(of, Place { file, row: number }, row, values, loading)?;
        number += 1;
    }
    Ok(())
}

/// Adds the elements of the records after a header.
pub(crate) fn take_records(
    alloc: Global,
    of: ElementKind,
    file: u32,
    records: &mut Records<'_>,
    loading: &mut Loading,
) -> Result<(), TableFault>
    requires sound { IsSound loading.old }
    requires table { 0 < (filled_of of loading.old).tables }
    requires tables { tables_in loading.old ≤ most_tables }
    requires short { length records.old + 2 < 2 ^ 32 }
    ensures gives { Gives (λ _. graph_of loading.new) result (rows_from of file 2 (filled_of of loading.old).label (filled_of of loading.old).columns records.old (graph_of loading.old)) }
    ensures sound { OnOk result (IsSound loading.new) }
    ensures keeps { OnOk result (KeepsTables loading.old loading.new) }
{
    let mut row = Row::new(alloc);
    let mut values = Vec::new(alloc);
    take_each(of, file, records, &mut row, &mut values, loading)
}
