//! From contexts to the rows of an answer.
ghost use Rattle.std.specs.Prelude.{◌≡◌, ◌+◌, ◌<◌, ◌≤◌, ◌++◌, ◌∷◌, [], ℕ, List, OnOk, IfOk, length, map};
ghost use Rattle.std.specs.List.{range_with_len};
ghost use Rattle.answer_rows.specs.Arranged.{rows_of};
ghost use Rattle.match_context.specs.Words.{number_in};
ghost use Rattle.pgql_meaning.specs.Answer.{arrangement_of};
ghost use Rattle.result_collect.specs.Contexts as contexts;
ghost use Rattle.result_collect.specs.Contexts.{AreAnswerOf};

use adfs_base::{CONTEXT_WORDS, Kind, NoMemory, Value};
use answer_rows::{Match, Row, rows_in_order};
use element_store::value_from;
use match_context::Context;
use pgql_meaning::{arrangement_of, shown};
use std::alloc::Global;
use typed_query::{Capture, Query, What};
use value_text::Texts;

// The kind of what is used of a variable.
fn kind_of(what: What) -> Kind
    ensures { result ≡ contexts.kind_of what }
{
    match what {
        What::Property(_, kind) => kind,
        What::Id => Kind::Int,
        What::Label => Kind::Text,
    }
}

fn numbers_in(alloc: Global, context: &Context, variables: usize) -> Result<Vec<u32>, NoMemory>
    requires { variables < CONTEXT_WORDS }
    ensures { IfOk result (λ numbers. numbers.items ≡ map (number_in context.now.words) (range_with_len 0 variables)) }
{
    let mut numbers = Vec::with_capacity(alloc, variables)?;
    for variable in 0..variables {
        numbers.push(context.number(variable))?;
    }
    Ok(numbers)
}

// Puts the captured values of a context into `values`, in place of what it held.
fn read_values(
    context: &Context,
    variables: usize,
    captures: &[Capture],
    values: &mut Vec<Value>,
) -> Result<(), NoMemory>
    requires { 1 + variables + length captures.now ≤ CONTEXT_WORDS }
    ensures { OnOk result (values.new.items ≡ contexts.values_from context.now.words variables 0 captures.now) }
{
    values.clear();
    let mut place: usize = 0;
    let mut rest = captures;
    while let [capture, others @ ..] = rest {
        let word = context.captured(variables, place);
        values.push(value_from(kind_of(capture.what), word))?;
        place += 1;
        rest = others;
    }
    Ok(())
}

// Adds the match for which a context stands.
fn add_match(
    alloc: Global,
    context: &Context,
    query: &Query,
    texts: &Texts,
    values: &mut Vec<Value>,
    matches: &mut Vec<Match>,
) -> Result<(), NoMemory>
    requires { 1 + length query.now.variables + length query.now.captures ≤ CONTEXT_WORDS }
    ensures { OnOk result (matches.new.items ≡ matches.old.items ++ contexts.shown_in texts.now query.now context.now ∷ []) }
{
    let variables = query.variables.as_slice().len();
    read_values(context, variables, query.captures.as_slice(), values)?;
    let numbers = numbers_in(alloc, context, variables)?;
    matches.push(shown(alloc, query, texts, numbers, values)?)?;
    Ok(())
}

fn matches_in(
    alloc: Global,
    rows: &[Context],
    query: &Query,
    texts: &Texts,
) -> Result<Vec<Match>, NoMemory>
    requires { 1 + length query.now.variables + length query.now.captures ≤ CONTEXT_WORDS }
    ensures { IfOk result (λ found. found.items ≡ map (contexts.shown_in texts.now query.now) rows.now) }
{
    let mut matches = Vec::with_capacity(alloc, rows.len())?;
    let mut values = Vec::new(alloc);
    let mut rest = rows;
    while let [context, others @ ..] = rest {
        add_match(alloc, context, query, texts, &mut values, &mut matches)?;
        rest = others;
    }
    Ok(matches)
}

// The rows that the contexts show, in order.
fn rows_shown(
    alloc: Global,
    rows: Vec<Context>,
    query: &Query,
    texts: &Texts,
) -> Result<Vec<Row>, NoMemory>
    requires { 1 + length query.now.variables + length query.now.captures ≤ CONTEXT_WORDS }
    ensures { IfOk result (λ found. found.items ≡ rows_of texts.now (arrangement_of query.now) (map (contexts.shown_in texts.now query.now) rows.items)) }
{
    let arrangement = arrangement_of(alloc, query)?;
    let matches = matches_in(alloc, &rows, query, texts)?;
    rows_in_order(alloc, matches, &arrangement, texts)
}

/// The rows of an answer, from the contexts of its matches in whatever order they come.
///
/// Each context is decoded once and its order keys are evaluated once; then the matches are sorted in place.
/// Where each context stands for a match, and each match of the query over a graph has one context, the rows
/// are exactly the answer.
pub fn collect(
    alloc: Global,
    rows: Vec<Context>,
    query: &Query,
    texts: &Texts,
) -> Result<Vec<Row>, NoMemory>
    requires { 1 + length query.now.variables + length query.now.captures ≤ CONTEXT_WORDS }
    ensures shown { IfOk result (λ found. found.items ≡ rows_of texts.now (arrangement_of query.now) (map (contexts.shown_in texts.now query.now) rows.items)) }
    ensures answer { IfOk result (λ found. AreAnswerOf texts.now query.now rows.items found.items) }
{
    // The clause `answer` rests on it that no two texts are the same, which a call of `len` says of them.
    let _count = texts.len();
    rows_shown(alloc, rows, query, texts)
}
