//! Which assignments fit.
ghost use Rattle.std.specs.Prelude.{◌≡◌, length, slice_get, false};
ghost use Rattle.std.specs.List.{list_all, list_any, range_with_len};
ghost use Rattle.std.specs.Option.{option_and_then, option_copied, option_map, option_map_or};
ghost use Rattle.std.specs.Str.{bytes_eq};
ghost use Rattle.typed_query.specs.Val as val;
ghost use Rattle.value_text.specs.Texts.{text_at};
ghost use Rattle.pgql_meaning.specs.Captured as captured;
ghost use Rattle.pgql_meaning.specs.Fits as spec;
ghost use Rattle.pgql_meaning.specs.Pruned as pruned;

use adfs_base::{Name, Value};
use graph_tables::Graph;
use sqlite_items::Items;
use typed_query::{EdgeJoin, Expr, Query, Variable, passes, value};
use value_text::Texts;

fn is_in(label: &[u8], list: &Items<Name>) -> bool
    ensures { result ≡ list_any (bytes_eq label.now) list.now }
{
    list.as_slice()
        .iter()
        .any(|name| label == name.text().as_bytes())
}

fn is_in_lists(label: &[u8], lists: &[Items<Name>]) -> bool
    ensures { result ≡ spec.is_in_lists label.now lists.now }
{
    lists.iter().all(|list| is_in(label, list))
}

// The bytes of a label; none where there is no such text.
fn label_text(texts: &Texts, label: u32) -> &[u8]
    ensures { result.now ≡ text_at texts.now label }
{
    if label < texts.len() {
        texts.get(label)
    } else {
        &[]
    }
}

// The number of the label of an element, where there is such an element.
fn label_at(graph: &Graph, variable: &Variable, number: u32) -> Option<u32>
    ensures { result ≡ option_map (λ e. e.label) (captured.element_at graph.now variable.now number) }
{
    if variable.edge {
        if number < graph.edges() {
            return Some(graph.edge(number).1);
        }
    } else if number < graph.vertices() {
        return Some(graph.vertex(number).1);
    }
    None
}

// Whether the element of this number has a label of each of the variable's lists.
fn has_labels(graph: &Graph, texts: &Texts, variable: &Variable, number: u32) -> bool
    ensures { result ≡ option_map_or (spec.has_labels texts.now variable.now.labels) (captured.element_at graph.now variable.now number) false }
{
    match label_at(graph, variable, number) {
        Some(label) => is_in_lists(label_text(texts, label), variable.labels.as_slice()),
        None => false,
    }
}

fn may_be(assigned: Option<&u32>, number: u32) -> bool
    ensures { result ≡ pruned.may_be (option_copied assigned.entry) number }
{
    match assigned {
        Some(assigned) => *assigned == number,
        None => true,
    }
}

fn may_join(graph: &Graph, numbers: &[u32], join: &EdgeJoin) -> bool
    ensures { result ≡ pruned.may_join graph.now numbers.now join.now }
{
    match numbers.get(join.edge as usize) {
        Some(edge) if *edge < graph.edges() => {
            let (_, _, source, target) = graph.edge(*edge);
            may_be(numbers.get(join.source as usize), source)
                && may_be(numbers.get(join.target as usize), target)
        }
        Some(_) => false,
        None => true,
    }
}

// Whether the edges among the first numbers of an assignment run between the vertices among them.
fn may_join_all(graph: &Graph, query: &Query, numbers: &[u32]) -> bool
    ensures { result ≡ pruned.may_join_all graph.now query.now numbers.now }
{
    query
        .edges
        .as_slice()
        .iter()
        .all(|join| may_join(graph, numbers, join))
}

// The same of the element that a variable stands for, where it has a number.
fn has_labels_of(graph: &Graph, texts: &Texts, variable: &Variable, number: Option<&u32>) -> bool
    ensures { result ≡ option_map_or (spec.has_labels texts.now variable.now.labels) (option_and_then (captured.element_at graph.now variable.now) (option_copied number.entry)) false }
{
    match number {
        Some(number) => has_labels(graph, texts, variable, *number),
        None => false,
    }
}

fn may_label_at(graph: &Graph, query: &Query, texts: &Texts, numbers: &[u32], place: usize) -> bool
    ensures { result ≡ pruned.may_label_at texts.now graph.now query.now numbers.now place }
{
    match query.variables.as_slice().get(place) {
        Some(variable) => has_labels_of(graph, texts, variable, numbers.get(place)),
        None => true,
    }
}

/// Whether some assignment that begins with these numbers may fit, by the label of the last element and by the
/// ends of edges. Where it says no, none fits.
pub fn may_fit(graph: &Graph, query: &Query, texts: &Texts, numbers: &[u32]) -> bool
    ensures { result ≡ pruned.may_fit texts.now graph.now query.now numbers.now }
{
    (numbers.is_empty() || may_label_at(graph, query, texts, numbers, numbers.len() - 1))
        && may_join_all(graph, query, numbers)
}

fn is_number(assigned: Option<&u32>, number: u32) -> bool
    ensures { result ≡ spec.is_number (option_copied assigned.entry) number }
{
    match assigned {
        Some(assigned) => *assigned == number,
        None => false,
    }
}

// Whether there is an edge of this number, and it runs between these vertices.
fn runs_between(graph: &Graph, edge: u32, source: Option<&u32>, target: Option<&u32>) -> bool
    ensures { result ≡ option_map_or (spec.runs_between (option_copied source.entry) (option_copied target.entry)) (slice_get graph.now.edges edge) false }
{
    if graph.edges() <= edge {
        return false;
    }
    let (_, _, from, to) = graph.edge(edge);
    is_number(source, from) && is_number(target, to)
}

fn is_joined(graph: &Graph, numbers: &[u32], join: &EdgeJoin) -> bool
    ensures { result ≡ spec.is_joined graph.now numbers.now join.now }
{
    let source = numbers.get(join.source as usize);
    let target = numbers.get(join.target as usize);
    match numbers.get(join.edge as usize) {
        Some(edge) => runs_between(graph, *edge, source, target),
        None => false,
    }
}

fn are_joined(graph: &Graph, query: &Query, numbers: &[u32]) -> bool
    ensures { result ≡ list_all (spec.is_joined graph.now numbers.now) query.now.edges }
{
    query
        .edges
        .as_slice()
        .iter()
        .all(|join| is_joined(graph, numbers, join))
}

fn is_labelled(graph: &Graph, query: &Query, texts: &Texts, numbers: &[u32], place: usize) -> bool
    ensures { result ≡ spec.is_labelled texts.now graph.now query.now numbers.now place }
{
    match query.variables.as_slice().get(place) {
        Some(variable) => has_labels_of(graph, texts, variable, numbers.get(place)),
        None => false,
    }
}

fn are_labelled(graph: &Graph, query: &Query, texts: &Texts, numbers: &[u32]) -> bool
    ensures { result ≡ list_all (spec.is_labelled texts.now graph.now query.now numbers.now) (range_with_len 0 (length query.now.variables)) }
{
    (0..query.variables.as_slice().len()).all(|place| is_labelled(
        graph, query, texts, numbers, place,
    ))
}

fn all_hold(query: &Query, texts: &Texts, values: &[Value]) -> bool
    ensures { result ≡ list_all (λ conjunct. val.passes (val.val texts.now values.now conjunct)) query.now.conjuncts }
{
    query
        .conjuncts
        .as_slice()
        .iter()
        .all(|conjunct| passes(value(conjunct, values, texts)))
}

/// Whether an assignment with these captured values fits.
pub fn fits(graph: &Graph, query: &Query, texts: &Texts, numbers: &[u32], values: &[Value]) -> bool
    requires { values.now ≡ captured.captured graph.now query.now numbers.now }
    ensures { result ≡ spec.fits texts.now graph.now query.now numbers.now }
{
    if !are_labelled(graph, query, texts, numbers) {
        return false;
    }
    if !are_joined(graph, query, numbers) {
        return false;
    }
    all_hold(query, texts, values)
}
