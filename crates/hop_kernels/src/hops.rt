//! What a hop gives at each of its places.
ghost use Rattle.std.specs.Prelude.{◌≡◌, ◌<◌, ◌≤◌, ◌+◌, Some, None, IsSome, MatchOption, drop, length, slice_get, slice_index};
ghost use Rattle.std.specs.Option.{option_map};
ghost use Rattle.match_context.specs.Tree.{answer};
ghost use Rattle.partition.specs.Parts.{link_of_entry, entry_at};
ghost use Rattle.stage_plan.specs.declared.hop.Hop.TheVariants as hop;
ghost use Rattle.plan_tree.specs.Answers as answers;
ghost use Rattle.plan_tree.specs.Told as told;
ghost use Rattle.hop_kernels.specs.Entries.{IsEntryAt, IsLow, answer_along};
ghost use Rattle.hop_kernels.specs.Fitting.{GainsFit, HasRoom, IsBelow, IsThere, StageFits};
ghost use Rattle.hop_kernels.specs.Looks.{with_end};
ghost use Rattle.hop_kernels.specs.Spots.{AreNumbered, entry_in};
ghost use Rattle.hop_kernels.specs.declared.spot.Spot.TheVariants as spot;

use crate::ground::Ground;
use crate::look::{Look, all_hold, first_word, is_told_at};
use crate::spot::{Spot, place_in};
use crate::words::write;
use adfs_base::CONTEXT_WORDS;
use match_context::{Context, Next};
use partition::Link;
use stage_plan::{Gains, Hop, Stage};
use typed_expr::Query;

/// A step along the edge of an entry, and what it binds.
#[derive(Clone, Copy)]
pub(crate) struct Step {
    /// Where the entry stands.
    pub(crate) place: u32,
    pub(crate) out: bool,
    pub(crate) number: u32,
    /// The edge's variable.
    pub(crate) edge: u32,
    /// The variable of the vertex at the other end, where that is new.
    pub(crate) to: Option<u32>,
}

impl Step {
    pub(crate) fn spot(self) -> Spot
        ensures { result ≡ spot.Edge self.place self.out self.number }
    {
        Spot::Edge {
            place: self.place,
            out: self.out,
            number: self.number,
        }
    }
}

// The place of the current vertex, if its list has an entry of this number.
fn entry_place(
    ground: &Ground<'_>,
    stage: &Stage,
    context: &Context,
    number: u64,
    out: bool,
) -> Option<u32>
    requires numbered { AreNumbered ground.now.part.now }
    requires there { 1 + stage.now.current < CONTEXT_WORDS }
    ensures { MatchOption result (slice_get (answers.entries_in out ground.now.part.now (slice_index context.now.words (1 + stage.now.current))) number ≡ None)
        (λ place. IsEntryAt out ground.now.part.now (slice_index context.now.words (1 + stage.now.current)) number place) }
{
    let place = place_in(ground.part, context.words[1 + stage.current as usize])?;
    if number < u64::from(ground.part.degree(place, out)) {
        Some(place)
    } else {
        None
    }
}

// Whether the capture of a place is one of a variable.
fn is_of(query: &Query, variable: u32, place: u32) -> bool
    requires { place < length query.now.captures }
    ensures { result ≡ answers.is_of query.now variable place }
{
    query.captures.as_slice()[place as usize].variable == variable
}

/// Whether the words that a passage reads of the context, and not of its edge, stand for values.
pub(crate) fn others_told(ground: &Ground<'_>, gains: &Gains, edge: u32, context: &Context) -> bool
    requires room { HasRoom ground.now.query.now }
    requires fits { GainsFit ground.now.query.now (Some edge) gains.now }
    ensures { result ≡ told.all_told ground.now.texts.now ground.now.query.now context.now.words (answers.others ground.now.query.now edge gains.now.reads) }
{
    for place in gains.reads.as_slice() {
        if !is_of(ground.query, edge, *place) && !is_told_at(ground, None, context, *place) {
            return false;
        }
    }
    true
}

/// Puts the numbers of an entry's edge and of its other end, where that is new, among the words.
pub(crate) fn bind(words: &mut [u64; CONTEXT_WORDS as usize], step: Step, entry: Link)
    requires edge_there { 1 + step.edge < CONTEXT_WORDS }
    requires end_there { IsBelow 39 step.to }
    ensures { words.new ≡ with_end step.to entry.other (told.with_number step.edge entry.edge words.old) }
{
    words[1 + step.edge as usize] = u64::from(entry.edge);
    if let Some(to) = step.to {
        words[1 + to as usize] = u64::from(entry.other);
    }
}

// The context that goes along an entry.
fn child_along(
    ground: &Ground<'_>,
    gains: &Gains,
    step: Step,
    entry: Link,
    context: &Context,
) -> Context
    requires room { HasRoom ground.now.query.now }
    requires fits { GainsFit ground.now.query.now (Some step.edge) gains.now }
    requires edge_there { step.edge < length ground.now.query.now.variables }
    requires end_there { IsThere ground.now.query.now step.to }
    requires there { IsSome (entry_at step.out ground.now.part.now step.place step.number) }
    ensures { result.words ≡ told.written ground.now.query.now (answers.edge_in (entry_in step.out ground.now.part.now step.place step.number)) gains.now.captures
        (with_end step.to entry.other (told.with_number step.edge entry.edge context.now.words)) }
{
    let mut child = *context;
    bind(&mut child.words, step, entry);
    write(
        ground.part,
        ground.query,
        step.spot(),
        gains.captures.as_slice(),
        &mut child.words,
    );
    child
}

// Along an entry: the child, or nothing where its edge doesn't fit. The context is copied only where it does.
fn along(ground: &Ground<'_>, gains: &Gains, step: Step, entry: Link, context: &Context) -> Next
    requires room { HasRoom ground.now.query.now }
    requires fits { GainsFit ground.now.query.now (Some step.edge) gains.now }
    requires edge_there { step.edge < length ground.now.query.now.variables }
    requires end_there { IsThere ground.now.query.now step.to }
    requires entry { option_map link_of_entry (entry_at step.out ground.now.part.now step.place step.number) ≡ Some entry }
    ensures { result ≡ answer_along ground.now.texts.now ground.now.query.now gains.now step.edge step.to context.now.words (entry_in step.out ground.now.part.now step.place step.number) }
{
    // What it promises keeps the places below within the context's words.
    let _word = first_word(context);
    if !ground.is_labelled(step.edge, entry.label) {
        return Next::Skip;
    }
    let look = Look {
        variable: step.edge,
        spot: step.spot(),
    };
    if !all_hold(ground, gains, Some(look), context) {
        return Next::Skip;
    }
    Next::Child(
        child_along(ground, gains, step, entry, context),
        entry.machine,
    )
}

/// The way along which a hop goes.
#[derive(Clone, Copy)]
pub(crate) struct Way {
    pub(crate) out: bool,
    pub(crate) edge: u32,
    pub(crate) to: u32,
}

// To a new vertex.
fn neighbour(ground: &Ground<'_>, stage: &Stage, way: Way, context: &Context, number: u64) -> Next
    requires room { HasRoom ground.now.query.now }
    requires fits { StageFits ground.now.query.now stage.now }
    requires numbered { AreNumbered ground.now.part.now }
    requires hop { stage.now.hop ≡ hop.Neighbour way.out way.edge way.to }
    ensures answer { result ≡ answer (drop number (answers.items_of ground.now.texts.now ground.now.query.now ground.now.part.now stage.now context.now.words)) }
    ensures low { IsLow result number }
{
    if !others_told(ground, &stage.passage, way.edge, context) {
        return Next::End;
    }
    let Some(place) = entry_place(ground, stage, context, number, way.out) else {
        return Next::End;
    };
    let step = Step {
        place,
        out: way.out,
        number: number as u32,
        edge: way.edge,
        to: Some(way.to),
    };
    let entry = ground.part.link(place, way.out, number as u32);
    along(ground, &stage.passage, step, entry, context)
}

// To a vertex that is bound: an entry with another end is passed over before anything else is looked at.
fn bound(ground: &Ground<'_>, stage: &Stage, way: Way, context: &Context, number: u64) -> Next
    requires room { HasRoom ground.now.query.now }
    requires fits { StageFits ground.now.query.now stage.now }
    requires numbered { AreNumbered ground.now.part.now }
    requires hop { stage.now.hop ≡ hop.Edge way.out way.edge way.to }
    ensures answer { result ≡ answer (drop number (answers.items_of ground.now.texts.now ground.now.query.now ground.now.part.now stage.now context.now.words)) }
    ensures low { IsLow result number }
{
    let end = context.words[1 + way.to as usize];
    if end >= u64::from(ground.part.graph_vertices())
        || !others_told(ground, &stage.passage, way.edge, context)
    {
        return Next::End;
    }
    let Some(place) = entry_place(ground, stage, context, number, way.out) else {
        return Next::End;
    };
    let entry = ground.part.link(place, way.out, number as u32);
    if u64::from(entry.other) != end {
        return Next::Skip;
    }
    let step = Step {
        place,
        out: way.out,
        number: number as u32,
        edge: way.edge,
        to: None,
    };
    along(ground, &stage.passage, step, entry, context)
}

// Back to a vertex that is bound, on its machine.
fn inspect(
    ground: &Ground<'_>,
    stage: &Stage,
    variable: u32,
    context: &Context,
    number: u64,
) -> Next
    requires room { HasRoom ground.now.query.now }
    requires fits { StageFits ground.now.query.now stage.now }
    requires hop { stage.now.hop ≡ hop.Inspect variable }
    ensures answer { result ≡ answer (drop number (answers.items_of ground.now.texts.now ground.now.query.now ground.now.part.now stage.now context.now.words)) }
    ensures low { IsLow result number }
{
    let vertex = context.words[1 + variable as usize];
    if number != 0 || vertex >= u64::from(ground.part.graph_vertices()) {
        return Next::End;
    }
    Next::Child(*context, ground.part.machine_of(vertex as u32))
}

/// What the hop of a stage gives at a place, once a context has arrived.
pub(crate) fn hop_answer(ground: &Ground<'_>, stage: &Stage, context: &Context, number: u64) -> Next
    requires room { HasRoom ground.now.query.now }
    requires fits { StageFits ground.now.query.now stage.now }
    requires numbered { AreNumbered ground.now.part.now }
    ensures answer { result ≡ answer (drop number (answers.items_of ground.now.texts.now ground.now.query.now ground.now.part.now stage.now context.now.words)) }
    ensures low { IsLow result number }
{
    match stage.hop {
        Hop::Root(_) => Next::End,
        Hop::Neighbour { out, edge, to } => {
            neighbour(ground, stage, Way { out, edge, to }, context, number)
        }
        Hop::Edge { out, edge, to } => {
            bound(ground, stage, Way { out, edge, to }, context, number)
        }
        Hop::Inspect(variable) => inspect(ground, stage, variable, context, number),
        Hop::Output if number == 0 => Next::Row(*context),
        Hop::Output => Next::End,
    }
}
