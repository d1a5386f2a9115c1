//! Loading the files of a graph.
ghost use Rattle.std.specs.Prelude.{◌≡◌, ◌<◌, ◌≤◌, ◌+◌, ◌-◌, ◌^◌, Err, IfErr, IfOk, IfSome, MatchResult, Ok, OnOk, drop, length};
ghost use Rattle.adfs_base.specs.Files.{file_of};
ghost use Rattle.csv.specs.Records.{fields_of};
ghost use Rattle.csv_records.specs.Table.{records_of};
ghost use Rattle.graph_tables.specs.Faults.{FailsAt, Gives, HasCause, Loads, fault_of};
ghost use Rattle.graph_tables.specs.Graph.{IsWhole, empty_graph};
ghost use Rattle.graph_tables.specs.Loading.{IsSound, filled_of, graph_of, properties_in, tables_in};
ghost use Rattle.graph_tables.specs.Manifest.{most_tables};
ghost use Rattle.graph_loading.specs.Loaded.{added_up, begun, edges_begun, file_bytes, header_of, loaded, most_of_all, most_of_file, table_records, tables_from, tables_named, vertices_begun, with_table};
ghost use Rattle.graph_loading.specs.Reaching.{IsReached, IsTableReached};
ghost use Rattle.graph_loading.specs.Steps.{HasBegun, HasLoaded, IsEmpty, LacksAt, ReadsFiles, file_answer};

use crate::rows::take_records;
use adfs_base::{EDGES, FILE_BYTES, Loaded, Store, TABLE_BYTES, VERTICES};
use csv::ByteRecord;
use csv_records::{Records, Row};
use graph_tables::{
    ElementKind, Graph, Loading, Place, Quantity, TableFault, TableKind, TableLine, file_fault,
    heading, read_manifest,
};
use memchr::memchr_iter;
use std::alloc::Global;

// What a load's answer means for a file, of which these bytes were read.
fn answer(file: u32, loaded: Loaded, bytes: &[u8]) -> Result<(), TableFault>
    ensures { result ≡ file_answer file loaded (length bytes.now) }
{
    match loaded {
        Loaded::Whole if bytes.len() as u64 <= FILE_BYTES => Ok(()),
        Loaded::Whole => Err(file_fault(file, TableKind::TooLong)),
        Loaded::Missing => Err(file_fault(file, TableKind::Missing)),
        Loaded::Failed => Err(file_fault(file, TableKind::ReadFault)),
        Loaded::NoMemory => Err(file_fault(0, TableKind::NoMemory)),
    }
}

// Loads a file into `bytes`, in place of what they hold.
fn load_file<S: Store>(
    store: &mut S,
    name: &str,
    file: u32,
    bytes: &mut Vec<u8>,
) -> Result<(), TableFault>
    ensures gives { IfSome (S.files store.old) (λ files. Loads (λ _. bytes.new.items) result (file_bytes file (file_of name.now files))) }
    ensures short { OnOk result (length bytes.new.items ≤ most_of_file) }
    ensures store { ReadsFiles S.files S.faults S.misses store.old store.new file file result }
{
    bytes.clear();
    let loaded = store.load(name, FILE_BYTES, bytes);
    answer(file, loaded, bytes)
}

// The bytes of the tables so far, this one included.
fn add_up(file: u32, total: u64, bytes: &[u8]) -> Result<u64, TableFault>
    requires total { total ≤ most_of_all }
    requires short { length bytes.now ≤ most_of_file }
    ensures sum { Gives (λ sum. sum) result (added_up file total bytes.now) }
    ensures few { IfOk result (λ sum. sum ≤ most_of_all) }
    ensures more { IfOk result (λ sum. sum ≡ total + length bytes.now) }
{
    let sum = total + bytes.len() as u64;
    if sum > TABLE_BYTES {
        return Err(file_fault(file, TableKind::TooMany(Quantity::TotalBytes)));
    }
    Ok(sum)
}

// Begins a table of vertices with its header.
fn begin_vertices(
    alloc: Global,
    at: Place,
    label: &[u8],
    header: &ByteRecord,
    loading: &mut Loading,
) -> Result<(), TableFault>
    requires sound { IsSound loading.old }
    requires tables { tables_in loading.old < most_tables }
    requires wide { properties_in loading.old + length (fields_of header.now) < 2 ^ 32 - 1 }
    ensures gives { Gives (λ _. (loading.new.vertices.columns, graph_of loading.new)) result (vertices_begun at label.now (fields_of header.now) (graph_of loading.old)) }
    ensures begun { OnOk result (HasBegun ElementKind.Vertex label.now (length (fields_of header.now)) loading.old loading.new) }
{
    let number = loading.texts.add(label)?;
    let columns = heading(
        alloc,
        ElementKind::Vertex,
        at,
        header,
        &mut loading.vertex_properties,
    )?;
    loading.vertices.begin_table(alloc, number, columns)?;
    Ok(())
}

// Begins a table of edges with its header.
fn begin_edges(
    alloc: Global,
    at: Place,
    label: &[u8],
    header: &ByteRecord,
    loading: &mut Loading,
) -> Result<(), TableFault>
    requires sound { IsSound loading.old }
    requires tables { tables_in loading.old < most_tables }
    requires wide { properties_in loading.old + length (fields_of header.now) < 2 ^ 32 - 1 }
    ensures gives { Gives (λ _. (loading.new.edges.columns, graph_of loading.new)) result (edges_begun at label.now (fields_of header.now) (graph_of loading.old)) }
    ensures begun { OnOk result (HasBegun ElementKind.Edge label.now (length (fields_of header.now)) loading.old loading.new) }
{
    let number = loading.texts.add(label)?;
    let columns = heading(
        alloc,
        ElementKind::Edge,
        at,
        header,
        &mut loading.edge_properties,
    )?;
    loading.edges.begin_table(alloc, number, columns)?;
    Ok(())
}

// Begins the table of a header.
fn begin_table(
    alloc: Global,
    at: Place,
    table: &TableLine,
    header: &ByteRecord,
    loading: &mut Loading,
) -> Result<(), TableFault>
    requires sound { IsSound loading.old }
    requires tables { tables_in loading.old < most_tables }
    requires wide { properties_in loading.old + length (fields_of header.now) < 2 ^ 32 - 1 }
    ensures gives { Gives (λ _. ((filled_of table.now.of loading.new).columns, graph_of loading.new)) result (begun at table.now (fields_of header.now) (graph_of loading.old)) }
    ensures begun { OnOk result (HasBegun table.now.of table.now.label (length (fields_of header.now)) loading.old loading.new) }
{
    let label = table.label.text().as_bytes();
    match table.of {
        ElementKind::Vertex => begin_vertices(alloc, at, label, header, loading),
        ElementKind::Edge => begin_edges(alloc, at, label, header, loading),
    }
}

// Begins the table whose header is a row.
fn begin_by_row(
    alloc: Global,
    at: Place,
    table: &TableLine,
    row: &Row<'_>,
    loading: &mut Loading,
) -> Result<(), TableFault>
    requires sound { IsSound loading.old }
    requires tables { tables_in loading.old < most_tables }
    requires wide { properties_in loading.old + length row.now < 2 ^ 32 - 1 }
    ensures gives { Gives (λ _. ((filled_of table.now.of loading.new).columns, graph_of loading.new)) result (begun at table.now row.now (graph_of loading.old)) }
    ensures begun { OnOk result (HasBegun table.now.of table.now.label (length row.now) loading.old loading.new) }
{
    let mut header = ByteRecord::new(alloc);
    row.copy_to(&mut header)?;
    begin_table(alloc, at, table, &header, loading)
}

// Reads the header of a table, and begins the table.
fn take_header(
    alloc: Global,
    at: Place,
    table: &TableLine,
    records: &mut Records<'_>,
    loading: &mut Loading,
) -> Result<(), TableFault>
    requires sound { IsSound loading.old }
    requires tables { tables_in loading.old < most_tables }
    requires wide { properties_in loading.old + length (header_of records.old) < 2 ^ 32 - 1 }
    ensures gives { Gives (λ _. ((filled_of table.now.of loading.new).columns, graph_of loading.new)) result (begun at table.now (header_of records.old) (graph_of loading.old)) }
    ensures begun { OnOk result (HasBegun table.now.of table.now.label (length (header_of records.old)) loading.old loading.new) }
    ensures rest { OnOk result (records.new ≡ drop 1 records.old) }
{
    let mut row = Row::new(alloc);
    if !records.next(&mut row)? {
        return Err(at.fault(1, TableKind::BadHeader));
    }
    begin_by_row(alloc, at, table, &row, loading)
}

/// How many bytes of a table are looked at to guess the number of its lines.
const SAMPLE: usize = 65_536;

// About as many lines as a table has, by those of its front.
fn lines_about(bytes: &[u8]) -> usize {
    let front = &bytes[..bytes.len().min(SAMPLE)];
    let lines = memchr_iter(b'\n', front).count();
    lines.saturating_mul(bytes.len() / SAMPLE + 1)
}

// Makes room for about as many elements as a table has lines.
fn make_room(of: ElementKind, bytes: &[u8], loading: &mut Loading) -> Result<(), TableFault>
    ensures same { loading.new ≡ loading.old }
    ensures memory { IfErr result (λ e. e ≡ fault_of 0 TableKind.NoMemory) }
{
    let lines = lines_about(bytes);
    match of {
        ElementKind::Vertex => loading.vertices.reserve(lines.min(VERTICES as usize))?,
        ElementKind::Edge => loading.edges.reserve(lines.min(EDGES as usize))?,
    }
    Ok(())
}

// Adds the elements of a table's bytes.
fn take_table(
    alloc: Global,
    file: u32,
    table: &TableLine,
    bytes: &[u8],
    loading: &mut Loading,
) -> Result<(), TableFault>
    requires short { length bytes.now ≤ most_of_file }
    requires sound { IsSound loading.old }
    requires tables { tables_in loading.old < most_tables }
    requires wide { properties_in loading.old + length bytes.now + 1 < 2 ^ 32 - 1 }
    ensures gives { Gives (λ _. graph_of loading.new) result (table_records file table.now (records_of bytes.now) (graph_of loading.old)) }
    ensures sound { OnOk result (IsSound loading.new) }
    ensures tables { OnOk result (tables_in loading.new ≡ tables_in loading.old + 1) }
    ensures properties { OnOk result (properties_in loading.new ≤ properties_in loading.old + length bytes.now + 1) }
{
    make_room(table.of, bytes, loading)?;
    let mut records = Records::new(alloc, bytes);
    take_header(alloc, Place { file, row: 1 }, table, &mut records, loading)?;
    take_records(alloc, table.of, file, &mut records, loading)
}

// Loads a table, and answers the bytes of the tables so far.
fn load_table<S: Store>(
    alloc: Global,
    store: &mut S,
    file: u32,
    table: &TableLine,
    total: u64,
    bytes: &mut Vec<u8>,
    loading: &mut Loading,
) -> Result<u64, TableFault>
    requires total { total ≤ most_of_all }
    requires sound { IsSound loading.old }
    requires tables { tables_in loading.old < most_tables }
    requires wide { properties_in loading.old ≤ total + most_tables }
    ensures gives { IfSome (S.files store.old) (λ files. Loads (λ sum. (sum, graph_of loading.new)) result (with_table files file table.now (total, graph_of loading.old))) }
    ensures loads { IfOk result (λ sum. HasLoaded total sum loading.old loading.new) }
    ensures store { ReadsFiles S.files S.faults S.misses store.old store.new file file result }
{
    load_file(store, table.file.text(), file, bytes)?;
    let sum = add_up(file, total, bytes)?;
    take_table(alloc, file, table, bytes, loading)?;
    Ok(sum)
}

// Loads the tables in order, and answers their bytes. `bytes` is where each is read to.
fn load_tables<S: Store>(
    alloc: Global,
    store: &mut S,
    tables: &[TableLine],
    bytes: &mut Vec<u8>,
    loading: &mut Loading,
) -> Result<u64, TableFault>
    requires few { length tables.now ≤ most_tables }
    requires empty { IsEmpty loading.old }
    ensures gives { IfSome (S.files store.old) (λ files. Loads (λ sum. (sum, graph_of loading.new)) result (tables_from files 1 tables.now (0, empty_graph))) }
    ensures sound { OnOk result (IsSound loading.new) }
    ensures store { ReadsFiles S.files S.faults S.misses store.old store.new 1 (length tables.now) result }
    ensures reached { IfErr result (λ e. e.kind ≡ TableKind.ReadFault → IfSome (S.files store.old) (λ files. IsTableReached files tables.now e.file)) }
{
    let mut total = 0;
    for i in 0..tables.len() {
        let file = i as u32 + 1;
        total = load_table(alloc, store, file, &tables[i], total, bytes, loading)?;
    }
    Ok(total)
}

// The tables of a manifest that a store has.
fn load_manifest<S: Store>(
    alloc: Global,
    store: &mut S,
    name: &str,
    bytes: &mut Vec<u8>,
) -> Result<Vec<TableLine>, TableFault>
    ensures gives { IfSome (S.files store.old) (λ files. Loads (λ tables. tables.items) result (tables_named files name.now)) }
    ensures few { IfOk result (λ tables. length tables.items ≤ most_tables) }
    ensures store { ReadsFiles S.files S.faults S.misses store.old store.new 0 0 result }
{
    load_file(store, name, 0, bytes)?;
    read_manifest(alloc, bytes)
}

// Loads the tables that a manifest names.
fn load_named<S: Store>(
    alloc: Global,
    store: &mut S,
    manifest: &str,
    loading: &mut Loading,
) -> Result<u64, TableFault>
    requires { IsEmpty loading.old }
    ensures gives { IfSome (S.files store.old) (λ files. Loads (λ _. graph_of loading.new) result (loaded files manifest.now)) }
    ensures sound { OnOk result (IsSound loading.new) }
    ensures store { ReadsFiles S.files S.faults S.misses store.old store.new 0 most_tables result }
    ensures reached { IfErr result (λ e. e.kind ≡ TableKind.ReadFault → IfSome (S.files store.old) (λ files. IsReached files manifest.now e.file)) }
{
    let mut bytes = Vec::new(alloc);
    let tables = load_manifest(alloc, store, manifest, &mut bytes)?;
    load_tables(alloc, store, &tables, &mut bytes, loading)
}

// The graph of what was loaded, if loading it went well.
fn graph_from(
    alloc: Global,
    loading: Loading,
    loaded: Result<u64, TableFault>,
) -> Result<Graph, TableFault>
    requires { OnOk loaded (IsSound loading) }
    ensures { MatchResult loaded (λ _. result ≡ Ok (graph_of loading)) (λ e. result ≡ Err e) }
{
    match loaded {
        Ok(_) => Ok(Graph::new(alloc, loading)),
        Err(fault) => Err(fault),
    }
}

/// Loads the graph of a manifest and the tables that it names.
///
/// Where the store tells its files, the answer is exactly `loaded` of them: the graph, or the first fault
/// in order of manifest line, record and column. A load that failed is answered only where the store's
/// count of faults rose in this call, and names the manifest or one of at most 256 tables; where the files
/// are told, one that the manifest names, and the tables before it load. A file that the store lacks, where
/// its files aren't told, is answered only where its count of misses rose, and names one of the same.
pub fn load_graph<S: Store>(
    alloc: Global,
    store: &mut S,
    manifest: &str,
) -> Result<Graph, TableFault>
    ensures kept { S.files store.new ≡ S.files store.old }
    ensures gives { IfSome (S.files store.old) (λ files. Loads (λ graph. graph) result (loaded files manifest.now)) }
    ensures whole { IfOk result IsWhole }
    ensures cause { HasCause (S.files store.old) (S.faults store.old) (S.faults store.new) (S.misses store.old) (S.misses store.new) result }
    ensures place { IfErr result (FailsAt 0 most_tables) }
    ensures lacking { IfErr result (LacksAt 0 most_tables) }
    ensures reached { IfErr result (λ e. e.kind ≡ TableKind.ReadFault → IfSome (S.files store.old) (λ files. IsReached files manifest.now e.file)) }
{
    let mut loading = Loading::new(alloc);
    let loaded = load_named(alloc, store, manifest, &mut loading);
    graph_from(alloc, loading, loaded)
}
