//! The values that an assignment captures of a graph.
ghost use Rattle.std.specs.Prelude.{◌≡◌, OnOk, slice_get};
ghost use Rattle.std.specs.Option.{option_and_then, option_copied, option_map_or};
ghost use Rattle.adfs_base.specs.declared.value.Value.TheVariants as value;
ghost use Rattle.graph_tables.specs.Graph.{without_ends};
ghost use Rattle.pgql_meaning.specs.Captured as captured;
ghost use Rattle.pgql_meaning.specs.Captured.{use_of};

use adfs_base::{NoMemory, Value};
use graph_tables::Graph;
use typed_query::{Capture, Query, Variable, What};

// What is used of the vertex of this number; null where there is none.
fn vertex_use(graph: &Graph, number: u32, what: What) -> Value
    ensures { result ≡ option_map_or (use_of what) (slice_get graph.now.vertices number) value.Null }
{
    if graph.vertices() <= number {
        return Value::Null;
    }
    let (key, label) = graph.vertex(number);
    match what {
        What::Property(property, _) => graph.vertex_value(number, property),
        What::Id => Value::Int(key),
        What::Label => Value::Text(label),
    }
}

// What is used of the edge of this number; null where there is none.
fn edge_use(graph: &Graph, number: u32, what: What) -> Value
    ensures { result ≡ option_map_or (use_of what) (slice_get (without_ends graph.now.edges) number) value.Null }
{
    if graph.edges() <= number {
        return Value::Null;
    }
    let (key, label, _, _) = graph.edge(number);
    match what {
        What::Property(property, _) => graph.edge_value(number, property),
        What::Id => Value::Int(key),
        What::Label => Value::Text(label),
    }
}

fn use_at(graph: &Graph, variable: &Variable, number: u32, what: What) -> Value
    ensures { result ≡ option_map_or (use_of what) (captured.element_at graph.now variable.now number) value.Null }
{
    if variable.edge {
        edge_use(graph, number, what)
    } else {
        vertex_use(graph, number, what)
    }
}

// The same, of the element that the variable stands for, where it has a number.
fn use_by(graph: &Graph, variable: &Variable, number: Option<&u32>, what: What) -> Value
    ensures { result ≡ option_map_or (use_of what) (option_and_then (captured.element_at graph.now variable.now) (option_copied number.entry)) value.Null }
{
    match number {
        Some(number) => use_at(graph, variable, *number, what),
        None => Value::Null,
    }
}

fn captured_value(graph: &Graph, query: &Query, numbers: &[u32], capture: &Capture) -> Value
    ensures { result ≡ captured.captured_value graph.now query.now numbers.now capture.now }
{
    let place = capture.variable as usize;
    match query.variables.as_slice().get(place) {
        Some(variable) => use_by(graph, variable, numbers.get(place), capture.what),
        None => Value::Null,
    }
}

/// Puts the values of all captures of an assignment into `values`, in place of what it held.
pub fn capture(
    graph: &Graph,
    query: &Query,
    numbers: &[u32],
    values: &mut Vec<Value>,
) -> Result<(), NoMemory>
    ensures { OnOk result (values.new.items ≡ captured.captured graph.now query.now numbers.now) }
{
    values.clear();
    let captures = query.captures.as_slice();
    for capture in captures {
        values.push(captured_value(graph, query, numbers, capture))?;
    }
    Ok(())
}
