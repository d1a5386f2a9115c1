//! The files of a run: the graph's, the owner's, the queries', a trace.
ghost use Rattle.std.specs.Prelude.{◌≡◌, ◌≤◌, All, IfErr, IfOk, IfSome, length};
ghost use Rattle.adfs_base.specs.Files.{file_of};
ghost use Rattle.adfs_base.specs.declared.limits.TheConstants.{FILE_BYTES, QUERIES};
ghost use Rattle.run_status.specs.Faults.{with_owner_status, with_status};
ghost use Rattle.run_replies.specs.Given.{AreQueries};
ghost use Rattle.run_replies.specs.Outcome as outcome;
ghost use Rattle.run_replies.specs.Outcome.{few_places, file_bytes, listed_owner, owner_of, queries_of};
ghost use Rattle.run_replies.specs.Parts.{IsOfBytes, PartGives};
ghost use Rattle.run_replies.specs.Reaching.{GraphReaches, IsFile, OwnerReaches};
ghost use Rattle.run_replies.specs.Stores.{ReadsFiles};
ghost use Rattle.graph_tables.specs.Graph.{IsWhole};
ghost use Rattle.graph_loading.specs.Loaded.{loaded};
ghost use Rattle.partition.specs.OwnerFile.{owners_of};
ghost use Rattle.partition.specs.Owners.{IsOwner};
ghost use Rattle.pgql_lexer.specs.Pieces.{pieces};
ghost use Rattle.pgql_lexer.specs.Places.{LiesBetween};

use adfs_base::{FILE_BYTES, Loaded, PartWord, QUERIES, Store};
use graph_loading::load_graph;
use graph_tables::{Graph, Quantity};
use partition::{Owner, read_owners};
use pgql_lexer::cut;
use run_status::{Status, passed, status_of, status_of_owners};
use run_trace::Header;
use std::alloc::Global;

/// The number of the query file. The manifest is 0, and its tables are counted from 1.
pub const QUERY_FILE: u32 = 257;

/// The number of a trace that is taken again.
pub const TRACE_FILE: u32 = 258;

/// The number of the owner file.
pub const OWNER_FILE: u32 = 259;

/// A text of queries, and where they stand in it.
#[derive(Drop)]
pub struct Queries {
    pub text: Vec<u8>,
    pub places: Vec<(u32, u32)>,
}

/// The graph of the tables.
pub fn load_tables<S: Store>(alloc: Global, store: &mut S, manifest: &str) -> Result<Graph, Status>
    ensures gives { IfSome (S.files store.old) (λ files. PartGives (λ g. g) result (with_status (loaded files manifest.now))) }
    ensures whole { IfOk result IsWhole }
    ensures reads { ReadsFiles (GraphReaches manifest.now) (S.files store.old, S.faults store.old, S.misses store.old) (S.files store.new, S.faults store.new, S.misses store.new) result }
{
    match load_graph(alloc, store, manifest) {
        Ok(graph) => Ok(graph),
        Err(fault) => Err(status_of(fault)),
    }
}

/// The bytes of the file of a number.
pub fn load_file<S: Store>(
    alloc: Global,
    store: &mut S,
    number: u32,
    name: &str,
) -> Result<Vec<u8>, Status>
    ensures gives { IfSome (S.files store.old) (λ files. PartGives (λ v. v.items) result (file_bytes number (file_of name.now files))) }
    ensures short { IfOk result (λ v. length v.items ≤ FILE_BYTES) }
    ensures reads { ReadsFiles (IsFile number) (S.files store.old, S.faults store.old, S.misses store.old) (S.files store.new, S.faults store.new, S.misses store.new) result }
{
    let mut bytes = Vec::new(alloc);
    match store.load(name, FILE_BYTES, &mut bytes) {
        Loaded::Whole if FILE_BYTES < bytes.len() as u64 => Err(passed(Quantity::FileBytes)),
        Loaded::Whole => Ok(bytes),
        Loaded::Missing => Err(Status::Missing { file: number }),
        Loaded::Failed => Err(Status::ReadFault { file: number }),
        Loaded::NoMemory => Err(Status::NoMemory),
    }
}

// The owner that these bytes list.
fn owner_in(alloc: Global, bytes: &[u8], graph: &Graph, machines: u32) -> Result<Owner, Status>
    requires { length bytes.now ≤ FILE_BYTES }
    ensures gives { PartGives (λ owner. owner) result (with_owner_status (owners_of bytes.now graph.now.vertices machines)) }
    ensures fits { IfOk result (λ owner. IsOwner owner (length graph.now.vertices) machines) }
    ensures status { IfErr result IsOfBytes }
{
    match read_owners(alloc, bytes, graph, machines) {
        Ok(owner) => Ok(owner),
        Err(fault) => Err(status_of_owners(fault)),
    }
}

// The owner that a file lists.
fn load_listed<S: Store>(
    alloc: Global,
    store: &mut S,
    name: &str,
    graph: &Graph,
    machines: u32,
) -> Result<Owner, Status>
    ensures gives { IfSome (S.files store.old) (λ files. PartGives (λ owner. owner) result (listed_owner machines graph.now.vertices (file_of name.now files))) }
    ensures fits { IfOk result (λ owner. IsOwner owner (length graph.now.vertices) machines) }
    ensures reads { ReadsFiles (IsFile OWNER_FILE) (S.files store.old, S.faults store.old, S.misses store.old) (S.files store.new, S.faults store.new, S.misses store.new) result }
{
    match load_file(alloc, store, OWNER_FILE, name) {
        Ok(bytes) => owner_in(alloc, &bytes, graph, machines),
        Err(status) => Err(status),
    }
}

/// How the vertices of the graph are dealt out to the machines.
pub fn load_owner<S: Store>(
    alloc: Global,
    store: &mut S,
    header: &Header,
    graph: &Graph,
) -> Result<Owner, Status>
    ensures gives { IfSome (S.files store.old) (λ files. PartGives (λ owner. owner) result (owner_of header.now.part header.now.machines files graph.now.vertices)) }
    ensures fits { IfOk result (λ owner. IsOwner owner (length graph.now.vertices) header.now.machines) }
    ensures reads { ReadsFiles (OwnerReaches header.now.part) (S.files store.old, S.faults store.old, S.misses store.old) (S.files store.new, S.faults store.new, S.misses store.new) result }
{
    match &header.part {
        PartWord::Modulo => Ok(Owner::Modulo),
        PartWord::Block => Ok(Owner::Block),
        PartWord::Listed(name) => load_listed(alloc, store, name.text(), graph, header.machines),
    }
}

// Where the queries of a file stand.
fn places_of(alloc: Global, text: &[u8]) -> Result<Vec<(u32, u32)>, Status>
    requires { length text.now ≤ FILE_BYTES }
    ensures gives { PartGives (λ v. v.items) result (few_places (pieces text.now)) }
    ensures few { IfOk result (λ v. length v.items ≤ QUERIES) }
    ensures within { IfOk result (λ v. All (LiesBetween 0 (length text.now)) v.items) }
    ensures status { IfErr result IsOfBytes }
{
    match cut(alloc, text) {
        Ok(places) if (QUERIES as usize) < places.len() => Err(passed(Quantity::Queries)),
        Ok(places) => Ok(places),
        Err(_) => Err(Status::NoMemory),
    }
}

// The queries of a text.
fn queries_in(alloc: Global, text: Vec<u8>) -> Result<Queries, Status>
    requires { length text.items ≤ FILE_BYTES }
    ensures gives { PartGives (λ queries. (queries.text.items, queries.places.items)) result (outcome.queries_in text.items) }
    ensures sound { IfOk result AreQueries }
    ensures status { IfErr result IsOfBytes }
{
    match places_of(alloc, &text) {
        Ok(places) => Ok(Queries { text, places }),
        Err(status) => Err(status),
    }
}

/// The query file, and where its queries stand.
pub fn load_queries<S: Store>(alloc: Global, store: &mut S, name: &str) -> Result<Queries, Status>
    ensures gives { IfSome (S.files store.old) (λ files. PartGives (λ queries. (queries.text.items, queries.places.items)) result (queries_of files name.now)) }
    ensures sound { IfOk result AreQueries }
    ensures reads { ReadsFiles (IsFile QUERY_FILE) (S.files store.old, S.faults store.old, S.misses store.old) (S.files store.new, S.faults store.new, S.misses store.new) result }
{
    match load_file(alloc, store, QUERY_FILE, name) {
        Ok(text) => queries_in(alloc, text),
        Err(status) => Err(status),
    }
}
