//! What comes of a query's text.
ghost use Rattle.std.specs.Prelude.{◌≡◌, ◌+◌, ◌<◌, ◌↔◌, ◌^◌, ◌-◌, true, IfOk, OnOk, ℕ, List, length};
ghost use Rattle.graph_tables.specs.Graph.{PropertyGraph};
ghost use Rattle.pgql_syntax.specs.Places.{IsTree};
ghost use Rattle.result_collect.specs.Refusals.{IsNamed, refusal_text};
ghost use Rattle.serial_run.specs.Engines.{HasItsValues};
ghost use Rattle.typed_expr.specs.Typed.{all_literals};
ghost use Rattle.typed_expr.specs.WellFormed.{IsWellFormed};
ghost use Rattle.value_text.specs.Texts.{Kept};
ghost use Rattle.query_replies.specs.Verdicts.{IsPlanVerdict, IsRefusal, IsVerdict};

use crate::faults::{refusal_of_syntax, refusal_of_typing};
use adfs_base::NoMemory;
use graph_tables::Schema;
use pgql_syntax::{Ast, parse};
use result_collect::{Refusal, put_refusal};
use stage_plan::{Plan, PlanFault, plan_query};
use std::alloc::Global;
use typed_expr::laws::trees_have_paths;
use typed_expr::{literal_count, type_query};
use typed_query::Query;
use value_text::Texts;

/// What comes of a query's text.
#[derive(Drop)]
pub enum Verdict {
    /// It is this query, which has this plan.
    Accepted(Query, Plan),
    /// It is refused by this line.
    Refused(Vec<u8>),
}

fn refused(alloc: Global, number: u32, refusal: Refusal) -> Result<Verdict, NoMemory>
    requires { IsNamed refusal }
    ensures { IfOk result (IsRefusal (refusal_text number refusal)) }
{
    let mut text = Vec::new(alloc);
    put_refusal(alloc, number, &refusal, &mut text)?;
    Ok(Verdict::Refused(text))
}

// A query with its plan, or the refusal where it has none.
fn planned(alloc: Global, number: u32, query: Query) -> Result<Verdict, NoMemory>
    requires { IsWellFormed query }
    ensures { IfOk result (IsPlanVerdict number query) }
{
    match plan_query(alloc, &query) {
        Ok(plan) => Ok(Verdict::Accepted(query, plan)),
        Err(PlanFault::TooWide(words)) => refused(alloc, number, Refusal::TooWide(words)),
        Err(PlanFault::NoMemory) => Err(NoMemory),
    }
}

// Whether the literals of a tree find numbers. They always do within the limits of graphs and files.
fn has_numbers(texts: &Texts, ast: &Ast) -> bool
    ensures { result ≡ true ↔ length texts.now + length (all_literals ast.now) < 2 ^ 32 - 1 }
{
    (texts.len() as u64) + (literal_count(ast) as u64) < 4_294_967_295
}

// What comes of the tree of a text.
fn verdict_on_tree(
    alloc: Global,
    schema: &Schema,
    texts: &mut Texts,
    number: u32,
    ast: Ast,
) -> Result<Verdict, NoMemory>
    requires paths { 0 < length ast.paths }
    ensures verdict { (base : ℕ) (text : List ℕ) → IsTree 64 base text ast → IfOk result (IsVerdict schema.now number base text texts.old texts.new) }
    ensures kept { OnOk result (Kept texts.old texts.new) }
{
    if !has_numbers(texts, &ast) {
        return Err(NoMemory);
    }
    match type_query(alloc, ast, schema, texts) {
        Ok(query) => planned(alloc, number, query),
        Err(fault) => refused(alloc, number, refusal_of_typing(fault)?),
    }
}

/// What comes of the text of the query of this number, whose first byte stands at `base` in its file: the query and its
/// plan, or the line of its refusal. The texts get those of its literals, and all earlier ones keep their numbers: so a
/// graph goes on to mean what it meant.
pub fn read_query(
    alloc: Global,
    schema: &Schema,
    texts: &mut Texts,
    number: u32,
    text: &[u8],
    base: u32,
) -> Result<Verdict, NoMemory>
    requires short { base + length text.now < 2 ^ 32 }
    ensures verdict { IfOk result (IsVerdict schema.now number base text.now texts.old texts.new) }
    ensures kept { OnOk result (Kept texts.old texts.new) }
    ensures values { (graph : PropertyGraph) → HasItsValues texts.old schema.now graph → OnOk result (HasItsValues texts.new schema.now graph) }
{
    match parse(alloc, text, base) {
        Ok(ast) => {
            // What this promises says that the query is well-formed.
            trees_have_paths();
            verdict_on_tree(alloc, schema, texts, number, ast)
        }
        Err(fault) => refused(alloc, number, refusal_of_syntax(fault)?),
    }
}
