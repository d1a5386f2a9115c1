//! From a query to its plan.
ghost use Rattle.std.specs.Prelude.{◌≡◌, ◌+◌, ◌<◌, ◌≤◌, ◌++◌, ◌^◌, ◌-◌, IfOk, IfSome, Ok, Err, length};
ghost use Rattle.adfs_base.specs.declared.limits.TheConstants.{CONTEXT_WORDS, MOST_STAGES};
ghost use Rattle.typed_expr.specs.WellFormed.{IsWellFormed};
ghost use Rattle.stage_plan.specs.Plans as spec;
ghost use Rattle.stage_plan.specs.Plans.{Gives, words_of};
ghost use Rattle.stage_plan.specs.Walk.{rooted, stages_from, stages_of};

use crate::fault::PlanFault;
use crate::hop::Hop;
use crate::planner::hops_of;
use crate::stage::Stage;
use crate::walk::Walk;
use adfs_base::{CONTEXT_WORDS, NoMemory};
use std::alloc::Global;
use std::marker::Model;
use typed_expr::Query;

/// How a query's matches are found: the hops through its pattern, and the stages at which they are taken. A
/// contract sees it as a `Course`.
#[derive(Drop)]
pub struct Plan {
    hops: Vec<Hop>,
    stages: Vec<Stage>,
    words: u32,
}

impl Model for Plan {
    ghost use Rattle.stage_plan.specs.Plans.{Course, IsCourse};

    ghost Value = { Course };

    ghost view = { λ plan. record { hops = plan.hops.items; stages = plan.stages.items; words = plan.words } };

    ghost invariant = { λ plan. IsCourse (record { hops = plan.hops.items; stages = plan.stages.items; words = plan.words }) };
}

impl Plan {
    /// The hops in their order: first the root, and last the output.
    pub fn hops(&self) -> &[Hop]
        ensures hops { result.now ≡ self.now.hops }
        ensures few { length self.now.hops ≤ MOST_STAGES + 1 }
    {
        &self.hops
    }

    /// The stages in their order. Each hop but the root has one.
    pub fn list(&self) -> &[Stage]
        ensures { result.now ≡ self.now.stages }
    {
        &self.stages
    }

    /// How many stages there are: at least one, and at most `MOST_STAGES`.
    pub fn stages(&self) -> u32
        ensures stages { result ≡ length self.now.stages }
        ensures some { 0 < result }
        ensures few { result ≤ MOST_STAGES }
    {
        self.stages.len() as u32
    }

    /// How many words of a context are used.
    pub fn words(&self) -> u32
        ensures { result ≡ self.now.words }
    {
        self.words
    }
}

// How many words a match needs; nothing where 32 bits don't hold the number.
fn words_of(query: &Query) -> Option<u32>
    ensures { IfSome result (λ words. words ≡ words_of query.now) }
{
    let variables = u32::try_from(query.variables.len()).ok()?;
    let captures = u32::try_from(query.captures.len()).ok()?;
    variables.checked_add(1)?.checked_add(captures)
}

// The stages of hops that begin at a root.
fn stages_of(alloc: Global, query: &Query, hops: &[Hop]) -> Result<Vec<Stage>, NoMemory>
    requires { length query.now.captures < 2 ^ 32 }
    ensures { IfOk result (λ stages. stages.items ≡ stages_of query.now hops.now) }
{
    match hops.split_first() {
        Some((Hop::Root(variable), path)) => stages_from(alloc, query, *variable, path),
        _ => Ok(Vec::new(alloc)),
    }
}

fn stages_from(
    alloc: Global,
    query: &Query,
    root: u32,
    path: &[Hop],
) -> Result<Vec<Stage>, NoMemory>
    requires { length query.now.captures < 2 ^ 32 }
    ensures { IfOk result (λ stages. stages.items ≡ stages_from query.now (rooted query.now root) path.now) }
{
    let mut walk = Walk::new(alloc, query, root)?;
    let mut stages = Vec::with_capacity(alloc, path.len())?;
    let mut rest = path;
    while let Some((hop, others)) = rest.split_first() {
        stages.push(walk.stage(alloc, query, *hop)?)?;
        rest = others;
    }
    Ok(stages)
}

/// The plan of a query: exactly `plan_of`, or `TooWide` with the number of words exactly where a context has fewer
/// than a match of the query needs.
pub fn plan_query(alloc: Global, query: &Query) -> Result<Plan, PlanFault>
    requires { IsWellFormed query.now }
    ensures gives { Gives result (spec.planned query.now) }
{
    let words = match words_of(query) {
        Some(words) => words,
        None => return Err(PlanFault::NoMemory),
    };
    if words > CONTEXT_WORDS {
        return Err(PlanFault::TooWide(words));
    }
    match plan_within(alloc, query, words) {
        Ok(plan) => Ok(plan),
        Err(_) => Err(PlanFault::NoMemory),
    }
}

// The plan of a query whose matches have so many words.
fn plan_within(alloc: Global, query: &Query, words: u32) -> Result<Plan, NoMemory>
    requires well { IsWellFormed query.now }
    requires words { words ≡ words_of query.now }
    requires few { words ≤ CONTEXT_WORDS }
    ensures { IfOk result (λ plan. plan ≡ spec.plan_of query.now) }
{
    let hops = hops_of(
        alloc,
        query.variables.as_slice().len(),
        query.edges.as_slice(),
    )?;
    let stages = stages_of(alloc, query, &hops)?;
    Ok(Plan {
        hops,
        stages,
        words,
    })
}
