//! All matches of a query, by a loop for each variable.
ghost use Rattle.std.specs.Prelude.{◌≡◌, ◌++◌, [], ◌∷◌, OnOk, IfOk, filter, map};
ghost use Rattle.typed_query.specs.Val as val;
ghost use Rattle.pgql_meaning.specs.Answer as answer;
ghost use Rattle.pgql_meaning.specs.Assignments as assignments;
ghost use Rattle.pgql_meaning.specs.Fits as spec;

use crate::captured::capture;
use crate::fits::{fits, may_fit};
use adfs_base::{Name, NoMemory, Value};
use answer_rows::{Match, Row};
use graph_tables::Graph;
use std::alloc::Global;
use typed_query::{Expr, Query, Variable, value};
use value_text::Texts;

/// The matches found so far, with room for the captured values of one more.
#[derive(Drop)]
pub struct Found {
    pub values: Vec<Value>,
    pub matches: Vec<Match>,
}

fn row_of(
    alloc: Global,
    columns: &[(Expr, Name)],
    texts: &Texts,
    values: &[Value],
) -> Result<Vec<Value>, NoMemory>
    ensures { IfOk result (λ row. row.items ≡ map (λ column. val.val texts.now values.now column.0) columns.now) }
{
    let mut row = Vec::with_capacity(alloc, columns.len())?;
    for column in columns {
        row.push(value(&column.0, values, texts))?;
    }
    Ok(row)
}

fn keys_of(
    alloc: Global,
    keys: &[(Expr, bool)],
    texts: &Texts,
    values: &[Value],
) -> Result<Vec<Value>, NoMemory>
    ensures { IfOk result (λ found. found.items ≡ map (λ key. val.val texts.now values.now key.0) keys.now) }
{
    let mut found = Vec::with_capacity(alloc, keys.len())?;
    for key in keys {
        found.push(value(&key.0, values, texts))?;
    }
    Ok(found)
}

/// The match of an assignment with these captured values.
pub fn shown(
    alloc: Global,
    query: &Query,
    texts: &Texts,
    numbers: Vec<u32>,
    values: &[Value],
) -> Result<Match, NoMemory>
    ensures { IfOk result (λ found. found ≡ answer.shown_by texts.now query.now values.now numbers.items) }
{
    let keys = keys_of(alloc, query.keys.as_slice(), texts, values)?;
    let row = row_of(alloc, query.select.as_slice(), texts, values)?;
    Ok(Match::new(keys, Row::new(row), numbers))
}

// The match of an assignment that is borrowed.
fn match_of(
    alloc: Global,
    query: &Query,
    texts: &Texts,
    numbers: &[u32],
    values: &[Value],
) -> Result<Match, NoMemory>
    ensures { IfOk result (λ found. found ≡ answer.shown_by texts.now query.now values.now numbers.now) }
{
    let numbers = numbers.to_vec(alloc)?;
    shown(alloc, query, texts, numbers, values)
}

fn push_match(found: Match, matches: &mut Vec<Match>) -> Result<(), NoMemory>
    ensures { OnOk result (matches.new.items ≡ matches.old.items ++ found ∷ []) }
{
    matches.push(found)?;
    Ok(())
}

// Adds the match of an assignment, if it fits.
fn add_if_fits(
    alloc: Global,
    graph: &Graph,
    query: &Query,
    texts: &Texts,
    numbers: &[u32],
    found: &mut Found,
) -> Result<(), NoMemory>
    ensures { OnOk result (found.new.matches.items ≡ found.old.matches.items ++ map (answer.shown texts.now graph.now query.now) (filter (spec.fits texts.now graph.now query.now) (numbers.now ∷ []))) }
{
    capture(graph, query, numbers, &mut found.values)?;
    if !fits(graph, query, texts, numbers, &found.values) {
        return Ok(());
    }
    let shown = match_of(alloc, query, texts, numbers, &found.values)?;
    push_match(shown, &mut found.matches)
}

fn range_of(graph: &Graph, variable: &Variable) -> u32
    ensures { result ≡ assignments.range_of graph.now variable.now }
{
    if variable.edge {
        graph.edges()
    } else {
        graph.vertices()
    }
}

/// Adds the matches that begin with these numbers, where these variables are those without one.
pub fn extend(
    alloc: Global,
    graph: &Graph,
    query: &Query,
    texts: &Texts,
    variables: &[Variable],
    numbers: &mut Vec<u32>,
    found: &mut Found,
) -> Result<(), NoMemory>
    ensures found { OnOk result (found.new.matches.items ≡ found.old.matches.items ++ map (answer.shown texts.now graph.now query.now) (assignments.extensions (spec.fits texts.now graph.now query.now) numbers.old.items (assignments.ranges_of graph.now variables.now))) }
    ensures numbers { OnOk result (numbers.new.items ≡ numbers.old.items) }
{
    if !may_fit(graph, query, texts, numbers) {
        return Ok(());
    }
    match variables.split_first() {
        None => add_if_fits(alloc, graph, query, texts, numbers, found),
        Some((variable, others)) => {
            for number in 0..range_of(graph, variable) {
                numbers.push(number)?;
                extend(alloc, graph, query, texts, others, numbers, found)?;
                numbers.pop();
            }
            Ok(())
        }
    }
}
