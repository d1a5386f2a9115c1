//! The answer of a query, by nested loops.
ghost use Rattle.std.specs.Prelude.{◌≡◌, IfOk, map};
ghost use Rattle.pgql_meaning.specs.Answer as answer;
ghost use Rattle.pgql_meaning.specs.Shown.{AreShown, HasMeaning, HasShown};

use crate::search::{Found, extend};
use adfs_base::NoMemory;
use answer_rows::{Arrangement, Match, Row, rows_in_order};
use graph_tables::Graph;
use std::alloc::Global;
use typed_query::{Expr, Query};
use value_text::Texts;

fn downs_of(alloc: Global, keys: &[(Expr, bool)]) -> Result<Vec<bool>, NoMemory>
    ensures { IfOk result (λ downs. downs.items ≡ map (λ key. key.1) keys.now) }
{
    let mut downs = Vec::with_capacity(alloc, keys.len())?;
    for key in keys {
        downs.push(key.1)?;
    }
    Ok(downs)
}

/// How the rows of a query stand.
pub fn arrangement_of(alloc: Global, query: &Query) -> Result<Arrangement, NoMemory>
    ensures { IfOk result (λ arrangement. arrangement ≡ answer.arrangement_of query.now) }
{
    let downs = downs_of(alloc, query.keys.as_slice())?;
    Ok(Arrangement::new(downs, query.distinct, query.limit))
}

// The matches of a query over a graph, in their order.
fn matches_of(
    alloc: Global,
    graph: &Graph,
    texts: &Texts,
    query: &Query,
) -> Result<Vec<Match>, NoMemory>
    ensures { IfOk result (λ found. found.items ≡ map (answer.shown texts.now graph.now query.now) (answer.all_matches texts.now graph.now query.now)) }
{
    let mut numbers = Vec::new(alloc);
    let mut found = Found {
        values: Vec::new(alloc),
        matches: Vec::new(alloc),
    };
    let variables = query.variables.as_slice();
    extend(
        alloc,
        graph,
        query,
        texts,
        variables,
        &mut numbers,
        &mut found,
    )?;
    let Found { matches, .. } = found;
    Ok(matches)
}

/// The answer of a query over a graph, by nested loops: exactly `answer_of`.
///
/// The texts are those that the graph's labels and values and the query's constants name.
pub fn answer_plain(
    alloc: Global,
    graph: &Graph,
    texts: &Texts,
    query: &Query,
) -> Result<Vec<Row>, NoMemory>
    ensures answer { IfOk result (λ rows. rows.items ≡ answer.answer_of texts.now graph.now query.now) }
    ensures shown { HasShown texts.now graph.now → HasMeaning texts.now query.now → IfOk result (λ rows. AreShown texts.now rows.items) }
{
    let matches = matches_of(alloc, graph, texts, query)?;
    let arrangement = arrangement_of(alloc, query)?;
    rows_in_order(alloc, matches, &arrangement, texts)
}
