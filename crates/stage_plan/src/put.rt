//! The text of a plan.
ghost use Rattle.std.specs.Prelude.{◌≡◌, ◌+◌, ◌<◌, ◌≤◌, ◌^◌, ◌++◌, IfOk, OnErr, OnOk, length, slice_get};
ghost use Rattle.std.specs.Option.{option_and_then, option_copied};
ghost use Rattle.std.specs.String.{string_bytes};
ghost use Rattle.stage_plan.specs.PlanText as spec;
ghost use Rattle.stage_plan.specs.PlanText.{plan_text};

use crate::hop::Hop;
use crate::plan::Plan;
use adfs_base::{Name, NoMemory};
use std::alloc::{AllocError, Global};
use typed_expr::Query;

// The name of a variable, if it has one.
fn name_of(query: &Query, number: u32) -> Option<&Name>
    ensures { option_copied result ≡ option_and_then (λ variable. variable.name) (slice_get query.now.variables number) }
{
    match query.variables.as_slice().get(number as usize) {
        Some(variable) => variable.name.as_ref(),
        None => None,
    }
}

// A variable by its name, or by its number where it has none.
fn variable_text(alloc: Global, query: &Query, number: u32) -> Result<String, AllocError>
    ensures { IfOk result (λ text. string_bytes text ≡ spec.variable_text query.now number) }
{
    match name_of(query, number) {
        Some(name) => {
            let name = name.text();
            format!(in alloc; "{name}")
        }
        None => format!(in alloc; "#{number}"),
    }
}

fn direction(out: bool) -> &'static str
    ensures { result.now ≡ spec.direction out }
{
    if out { "out " } else { "in " }
}

// The way along an edge to a vertex.
fn way_text(
    alloc: Global,
    query: &Query,
    out: bool,
    edge: u32,
    to: u32,
) -> Result<String, AllocError>
    ensures { IfOk result (λ text. string_bytes text ≡ spec.way_text query.now out edge to) }
{
    let direction = direction(out);
    let edge = variable_text(alloc, query, edge)?;
    let to = variable_text(alloc, query, to)?;
    format!(in alloc; "{direction}{edge} {to}")
}

fn hop_text(alloc: Global, query: &Query, hop: Hop) -> Result<String, AllocError>
    ensures { IfOk result (λ text. string_bytes text ≡ spec.hop_text query.now hop) }
{
    match hop {
        Hop::Root(variable) => {
            let variable = variable_text(alloc, query, variable)?;
            format!(in alloc; "root {variable}")
        }
        Hop::Neighbour { out, edge, to } => {
            let way = way_text(alloc, query, out, edge, to)?;
            format!(in alloc; "neighbour {way}")
        }
        Hop::Edge { out, edge, to } => {
            let way = way_text(alloc, query, out, edge, to)?;
            format!(in alloc; "edge {way}")
        }
        Hop::Inspect(variable) => {
            let variable = variable_text(alloc, query, variable)?;
            format!(in alloc; "inspect {variable}")
        }
        Hop::Output => format!(in alloc; "output"),
    }
}

fn hop_line(alloc: Global, query: &Query, stage: u32, hop: Hop) -> Result<String, AllocError>
    ensures { IfOk result (λ line. string_bytes line ≡ spec.hop_line query.now stage hop) }
{
    let text = hop_text(alloc, query, hop)?;
    format!(in alloc; "{stage} {text}\n")
}

fn head(alloc: Global, number: u32, plan: &Plan) -> Result<String, AllocError>
    ensures { IfOk result (λ line. string_bytes line ≡ spec.head_text number (length plan.now.stages) plan.now.words) }
{
    let stages = plan.stages();
    let words = plan.words();
    format!(in alloc; "query {number} stages {stages} words {words}\n")
}

fn stage_after(stage: u32, hop: Hop) -> u32
    requires { stage + 1 < 2 ^ 32 }
    ensures after { result ≡ spec.stage_after stage hop }
    ensures most { result ≤ stage + 1 }
{
    match hop {
        Hop::Root(_) => stage,
        _ => stage + 1,
    }
}

// The lines of the hops, after what the text has already.
fn put_hops(alloc: Global, query: &Query, hops: &[Hop], text: &mut String) -> Result<(), AllocError>
    requires { length hops.now < 2 ^ 32 }
    ensures { OnOk result (string_bytes text.new ≡ string_bytes text.old ++ spec.hop_lines query.now 0 hops.now) }
{
    let mut stage: u32 = 0;
    let mut rest = hops;
    while let Some((hop, others)) = rest.split_first() {
        let line = hop_line(alloc, query, stage, *hop)?;
        text.push_str(&line)?;
        stage = stage_after(stage, *hop);
        rest = others;
    }
    Ok(())
}

fn text_of(alloc: Global, number: u32, plan: &Plan, query: &Query) -> Result<String, AllocError>
    ensures { IfOk result (λ text. string_bytes text ≡ plan_text number plan.now query.now) }
{
    let mut text = head(alloc, number, plan)?;
    put_hops(alloc, query, plan.hops(), &mut text)?;
    Ok(text)
}

/// Appends the text of the plan of the query of this number. After `NoMemory` the bytes are as before.
pub fn put_plan(
    alloc: Global,
    number: u32,
    plan: &Plan,
    query: &Query,
    out: &mut Vec<u8>,
) -> Result<(), NoMemory>
    ensures ok { OnOk result (out.new.items ≡ out.old.items ++ plan_text number plan.now query.now) }
    ensures err { OnErr result (out.new.items ≡ out.old.items) }
{
    let text = text_of(alloc, number, plan, query)?;
    out.extend_from_slice(text.as_bytes())?;
    Ok(())
}
