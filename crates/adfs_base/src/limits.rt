//! The limits of a run, of queries, and of files and graphs.

/// The machines of a run.
pub const MACHINES: u32 = 8;

/// The workers of a machine.
pub const WORKERS: u32 = 8;

/// The buffers that one machine may have under way to a stage of another.
pub const CREDITS: u32 = 8;

/// The buffers that one machine may have under way to a stage of its own.
pub const BROAD_BUDGET: u32 = 16;

/// The contexts that a buffer has room for.
pub const BUFFER_CONTEXTS: u32 = 64;

/// The roots that one claim takes.
pub const ROOT_CHUNK: u64 = 64;

/// The words of a context, 8 bytes each: one of null bits, one for each variable, one for each capture.
pub const CONTEXT_WORDS: u32 = 40;

/// The stages of a plan.
pub const MOST_STAGES: u32 = 26;

/// The vertex variables of a query.
pub const VERTEX_VARIABLES: u32 = 10;

/// The edge variables of a query.
pub const EDGE_VARIABLES: u32 = 12;

/// The height of an expression.
pub const EXPRESSION_HEIGHT: u32 = 64;

/// The queries of a file.
pub const QUERIES: u32 = 4096;

/// The vertices of a graph.
pub const VERTICES: u32 = 4_194_304;

/// The edges of a graph.
pub const EDGES: u32 = 16_777_216;

/// The property cells of a graph, over all its tables.
pub const PROPERTY_CELLS: u64 = 67_108_864;

/// The tables that a manifest names.
pub const TABLES: u32 = 256;

/// The bytes of a file.
pub const FILE_BYTES: u64 = 268_435_456;

/// The bytes of all tables together.
pub const TABLE_BYTES: u64 = 1_073_741_824;
