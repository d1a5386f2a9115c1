//! What each query of a file is answered, or its plan.
ghost use Rattle.std.specs.Prelude.{◌≡◌, ◌+◌, ◌-◌, ◌<◌, ◌≤◌, ◌^◌, ◌||◌, ℕ, false, IfOk, OnOk, All, length, map};
ghost use Rattle.adfs_base.specs.declared.limits.TheConstants.{CONTEXT_WORDS};
ghost use Rattle.graph_tables.specs.Graph.{PropertyGraph};
ghost use Rattle.graph_tables.specs.Properties.{SchemaLists};
ghost use Rattle.pgql_lexer.specs.Places.{LiesBetween};
ghost use Rattle.pgql_meaning.specs.Shown.{HasMeaning};
ghost use Rattle.stage_plan.specs.PlanText.{plan_text};
ghost use Rattle.stage_plan.specs.Plans.{plan_of, words_of};
ghost use Rattle.typed_expr.specs.Captured.{HaveKinds};
ghost use Rattle.typed_expr.specs.WellFormed.{IsWellFormed};
ghost use Rattle.value_text.specs.Texts.{Kept};
ghost use Rattle.query_replies.specs.Replies as spec;
ghost use Rattle.query_replies.specs.Asked.{IsMeant, IsMeantOfSome, MayBeAsked, answering};
ghost use Rattle.query_replies.specs.Replies.{AreAnswers, IsAnswer};

use crate::reading::{Verdict, read_query};
use adfs_base::{FILE_BYTES, NoMemory};
use graph_tables::Schema;
use serial_run::Engine;
use stage_plan::{Plan, put_plan};
use std::alloc::Global;
use typed_query::Query;
use value_text::Texts;

/// A reply, or the line of a refusal.
#[derive(Drop)]
struct Reply {
    text: Vec<u8>,
    refused: bool,
}

/// What the queries of a file are answered: a text for each, in their order, and whether one is refused.
#[derive(Drop)]
pub struct Replies {
    pub texts: Vec<Vec<u8>>,
    pub refused: bool,
}

/// What is asked of each query.
#[derive(Drop)]
pub enum Asked {
    /// The rows of its answer over the graph whose parts the engine has.
    Rows(Engine),
    /// Its plan.
    Plan,
}

fn answered(text: Vec<u8>) -> Reply
    ensures text { result.text.items ≡ text.items }
    ensures refused { result.refused ≡ false }
{
    Reply {
        text,
        refused: false,
    }
}

fn plan_text(alloc: Global, number: u32, plan: &Plan, query: &Query) -> Result<Vec<u8>, NoMemory>
    ensures { IfOk result (λ text. text.items ≡ plan_text number plan.now query.now) }
{
    let mut text = Vec::new(alloc);
    put_plan(alloc, number, plan, query, &mut text)?;
    Ok(text)
}

// What is asked of a query that has this plan.
fn asked_text(
    alloc: Global,
    asked: &mut Asked,
    texts: &Texts,
    number: u32,
    query: Query,
    plan: Plan,
) -> Result<Vec<u8>, NoMemory>
    requires plan { plan ≡ plan_of query }
    requires well { IsWellFormed query }
    requires room { words_of query ≤ CONTEXT_WORDS }
    requires meaning { HasMeaning texts.now query }
    requires may { MayBeAsked texts.now asked.old query }
    ensures text { (schema : SchemaLists) (graph : PropertyGraph) → IsMeant texts.now schema graph asked.old → HaveKinds schema query → IfOk result (λ text. text.items ≡ answering graph asked.old texts.now number query) }
    ensures kept { asked.new ≡ asked.old }
{
    match asked {
        Asked::Rows(engine) => engine.reply(alloc, number, plan, query, texts),
        Asked::Plan => plan_text(alloc, number, &plan, &query),
    }
}

// What the query of this number is answered, whose first byte stands at `base` in its file.
fn reply_to_text(
    alloc: Global,
    asked: &mut Asked,
    schema: &Schema,
    texts: &mut Texts,
    number: u32,
    text: &[u8],
    base: u32,
) -> Result<Reply, NoMemory>
    requires short { base + length text.now < 2 ^ 32 }
    requires meant { IsMeantOfSome texts.old schema.now asked.old }
    ensures reply { (graph : PropertyGraph) → IsMeant texts.old schema.now graph asked.old → IfOk result (λ reply. IsAnswer (answering graph asked.old) schema.now number base text.now texts.old texts.new reply.text.items reply.refused) }
    ensures numbers { OnOk result (Kept texts.old texts.new) }
    ensures kept { asked.new ≡ asked.old }
{
    match read_query(alloc, schema, texts, number, text, base)? {
        Verdict::Accepted(query, plan) => {
            let text = asked_text(alloc, asked, texts, number, query, plan)?;
            Ok(answered(text))
        }
        Verdict::Refused(text) => Ok(Reply {
            text,
            refused: true,
        }),
    }
}

/// The bytes of a file from one place to another.
pub fn piece_of<'a>(file: &'a [u8], piece: &(u32, u32)) -> &'a [u8]
    requires { LiesBetween 0 (length file.now) piece.now }
    ensures text { result.now ≡ spec.piece_of file.now piece.now }
    ensures length { length result.now ≡ piece.now.1 - piece.now.0 }
{
    &file[piece.0 as usize..piece.1 as usize]
}

fn either(a: bool, b: bool) -> bool
    ensures { result ≡ (a || b) }
{
    a || b
}

/// What is asked of the queries of a file, which stand at these places: exactly `AreAnswers` of `answering`, where the
/// first has the number 1. The texts get those of the queries' literals. What is asked stays as it was.
pub fn answer_queries(
    alloc: Global,
    asked: &mut Asked,
    schema: &Schema,
    texts: &mut Texts,
    file: &[u8],
    pieces: &[(u32, u32)],
) -> Result<Replies, NoMemory>
    requires short { length file.now ≤ FILE_BYTES }
    requires few { length pieces.now ≤ 4096 }
    requires within { All (LiesBetween 0 (length file.now)) pieces.now }
    requires meant { IsMeantOfSome texts.old schema.now asked.old }
    ensures { (graph : PropertyGraph) → IsMeant texts.old schema.now graph asked.old → IfOk result (λ replies. AreAnswers (answering graph asked.old) schema.now file.now 1 pieces.now texts.old texts.new (map (λ text. text.items) replies.texts.items) replies.refused) }
{
    let mut found = Vec::new(alloc);
    let mut one_refused = false;
    let mut number: u32 = 1;
    let mut rest = pieces;
    while let Some((piece, others)) = rest.split_first() {
        let text = piece_of(file, piece);
        let reply = reply_to_text(alloc, asked, schema, texts, number, text, piece.0)?;
        one_refused = either(one_refused, reply.refused);
        found.push(reply.text)?;
        number += 1;
        rest = others;
    }
    Ok(Replies {
        texts: found,
        refused: one_refused,
    })
}
