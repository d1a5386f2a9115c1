//! From three numbers to the graph.
ghost use Rattle.std.specs.Prelude.{◌≡◌, ◌≤◌, ◌*◌, IfOk};
ghost use Rattle.graph_tables.specs.Graph.{IsWhole};
ghost use Rattle.generated_graph.specs.Loading.{Loads, graph_due};

use crate::laws::tables_load;
use graph_gen::{MANIFEST, generate};
use graph_loading::load_graph;
use graph_tables::{Graph, TableFault, TableKind};
use std::alloc::Global;

fn no_memory() -> TableFault
    ensures { result.kind ≡ TableKind.NoMemory }
{
    TableFault {
        file: 0,
        row: 0,
        column: 0,
        kind: TableKind::NoMemory,
    }
}

/// The graph of a seed, with so many vertices and edges. Memory may run out, and nothing else goes wrong.
pub fn generated_graph(
    alloc: Global,
    seed: u64,
    vertices: u64,
    edges: u64,
) -> Result<Graph, TableFault>
    requires vertices { (1 ≤ vertices) × (vertices ≤ 200000) }
    requires edges { edges ≤ 8 * vertices }
    ensures gives { Loads result (graph_due seed vertices edges) }
    ensures whole { IfOk result IsWhole }
{
    match generate(alloc, seed, vertices, edges) {
        Ok(mut tables) => {
            // Their store never fails, and what this promises says that no table is refused.
            tables_load();
            load_graph(alloc, &mut tables, MANIFEST)
        }
        Err(_) => Err(no_memory()),
    }
}
