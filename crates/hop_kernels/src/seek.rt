//! Places that are taken in one go, up to the first of which something comes.
ghost use Rattle.std.specs.Prelude.{◌≡◌, ◌<◌, ◌≤◌, ◌+◌, ◌==◌, ◌^◌, ℕ, List, false, true, Some, None, [], ◌∷◌, length, map, slice_get, slice_index, slice_index_or};
ghost use Rattle.std.specs.List.Sorted.{IsNonDecreasingBy};
ghost use Rattle.std.specs.Option.{option_map};
ghost use Rattle.match_context.specs.Tree.{Leaf};
ghost use Rattle.partition.specs.Parts.{entry_at, link_of_entry, lists_of};
ghost use Rattle.partition.specs.declared.link.Link.{Link};
ghost use Rattle.stage_plan.specs.declared.hop.Hop.TheVariants as hop;
ghost use Rattle.plan_tree.specs.Answers as answers;
ghost use Rattle.plan_tree.specs.Told as told;
ghost use Rattle.hop_kernels.specs.Fitting.{GainsFit, HasRoom, IsThere, StageFits};
ghost use Rattle.hop_kernels.specs.LabelTests.{is_labelled};
ghost use Rattle.hop_kernels.specs.Looks.{with_end};
ghost use Rattle.hop_kernels.specs.Seeks.{GoesAlong, IsFirstSought, IsSought, child_words, ends_at, leads};
ghost use Rattle.hop_kernels.specs.Spots.{AreNumbered, AreRising, entry_in};

use crate::arrival::arrive;
use crate::ground::Ground;
use crate::hops::{Step, Way, bind, others_told};
use crate::look::{Look, MOST_CAPTURES, all_hold_by, first_word};
use crate::spot::{Spot, place_in};
use crate::words::write;
use adfs_base::{CONTEXT_WORDS, Value};
use match_context::{Context, Found, Frame};
use partition::Link;
use stage_plan::{Gains, Hop, Stage};

/// Among so many entries it isn't worth while to look for an end by halves.
const FEW_ENTRIES: usize = 16;

/// A list of entries, and what is looked for in it.
#[derive(Clone, Copy)]
struct Aim {
    /// The place of the vertex whose list it is.
    place: u32,
    out: bool,
    /// The edge's variable.
    edge: u32,
    /// The other end, where that is bound.
    end: Option<u32>,
}

// Whether an entry has the other end that is looked for.
fn ends_at(end: Option<u32>, other: u32) -> bool
    ensures { result ≡ ends_at end other }
{
    match end {
        None => true,
        Some(end) => other == end,
    }
}

// Whether a child comes of an entry whose label is right. The values are a table to work in.
fn leads(
    ground: &Ground<'_>,
    gains: &Gains,
    aim: Aim,
    number: u32,
    entry: Link,
    context: &Context,
    values: &mut [Value; MOST_CAPTURES],
) -> bool
    requires room { HasRoom ground.now.query.now }
    requires fits { GainsFit ground.now.query.now (Some aim.edge) gains.now }
    requires edge_there { aim.edge < length ground.now.query.now.variables }
    requires entry { option_map link_of_entry (entry_at aim.out ground.now.part.now aim.place number) ≡ Some entry }
    requires label { is_labelled ground.now.texts.now ground.now.query.now aim.edge entry ≡ true }
    ensures { result ≡ leads ground.now.texts.now ground.now.query.now gains.now aim.edge aim.end context.now.words (entry_in aim.out ground.now.part.now aim.place number) }
{
    if !ends_at(aim.end, entry.other) {
        return false;
    }
    let look = Look {
        variable: aim.edge,
        spot: Spot::Edge {
            place: aim.place,
            out: aim.out,
            number,
        },
    };
    all_hold_by(ground, gains, Some(look), context, values)
}

// The first entry from one on of which a child comes, below another, where conjuncts are asked; that other, if none does.
fn first_holding(
    ground: &Ground<'_>,
    gains: &Gains,
    aim: Aim,
    entries: &[Link],
    context: &Context,
    from: usize,
    to: usize,
) -> usize
    requires room { HasRoom ground.now.query.now }
    requires fits { GainsFit ground.now.query.now (Some aim.edge) gains.now }
    requires edge_there { aim.edge < length ground.now.query.now.variables }
    requires entries { option_map (map link_of_entry) (slice_get (lists_of aim.out ground.now.part.now) aim.place) ≡ Some entries.now }
    requires few { length entries.now < 2 ^ 32 }
    requires rising { from ≤ to }
    requires within { to ≤ length entries.now }
    ensures rising { from ≤ result }
    ensures within { result ≤ to }
    ensures passed { (i : ℕ) → from ≤ i → i < result → leads ground.now.texts.now ground.now.query.now gains.now aim.edge aim.end context.now.words (entry_in aim.out ground.now.part.now aim.place i) ≡ false }
    ensures found { result < to → leads ground.now.texts.now ground.now.query.now gains.now aim.edge aim.end context.now.words (entry_in aim.out ground.now.part.now aim.place result) ≡ true }
{
    let mut values = [Value::Null; MOST_CAPTURES];
    let mut at = ground.next_labelled(aim.edge, entries, from, to);
    'looks: while at < to {
        if leads(
            ground,
            gains,
            aim,
            at as u32,
            entries[at],
            context,
            &mut values,
        ) {
            return at;
        }
        at = ground.next_labelled(aim.edge, entries, at + 1, to);
    }
    at
}

// The same where no conjuncts are asked, whatever the context: the label and the other end tell.
fn first_ending(
    ground: &Ground<'_>,
    gains: &Gains,
    aim: Aim,
    entries: &[Link],
    from: usize,
    to: usize,
) -> usize
    requires room { HasRoom ground.now.query.now }
    requires free { gains.now.conjuncts ≡ [] }
    requires edge_there { aim.edge < length ground.now.query.now.variables }
    requires entries { option_map (map link_of_entry) (slice_get (lists_of aim.out ground.now.part.now) aim.place) ≡ Some entries.now }
    requires few { length entries.now < 2 ^ 32 }
    requires rising { from ≤ to }
    requires within { to ≤ length entries.now }
    ensures rising { from ≤ result }
    ensures within { result ≤ to }
    ensures passed { (words : List ℕ) → (i : ℕ) → from ≤ i → i < result → leads ground.now.texts.now ground.now.query.now gains.now aim.edge aim.end words (entry_in aim.out ground.now.part.now aim.place i) ≡ false }
    ensures found { (words : List ℕ) → result < to → leads ground.now.texts.now ground.now.query.now gains.now aim.edge aim.end words (entry_in aim.out ground.now.part.now aim.place result) ≡ true }
{
    let mut at = ground.next_labelled(aim.edge, entries, from, to);
    'looks: while at < to && !ends_at(aim.end, entries[at].other) {
        at = ground.next_labelled(aim.edge, entries, at + 1, to);
    }
    at
}

// The first entry from one on of which a child comes, below another; that other, if none does.
fn first_leading(
    ground: &Ground<'_>,
    gains: &Gains,
    aim: Aim,
    entries: &[Link],
    context: &Context,
    from: usize,
    to: usize,
) -> usize
    requires room { HasRoom ground.now.query.now }
    requires fits { GainsFit ground.now.query.now (Some aim.edge) gains.now }
    requires edge_there { aim.edge < length ground.now.query.now.variables }
    requires entries { option_map (map link_of_entry) (slice_get (lists_of aim.out ground.now.part.now) aim.place) ≡ Some entries.now }
    requires few { length entries.now < 2 ^ 32 }
    requires rising { from ≤ to }
    requires within { to ≤ length entries.now }
    ensures rising { from ≤ result }
    ensures within { result ≤ to }
    ensures passed { (i : ℕ) → from ≤ i → i < result → leads ground.now.texts.now ground.now.query.now gains.now aim.edge aim.end context.now.words (entry_in aim.out ground.now.part.now aim.place i) ≡ false }
    ensures found { result < to → leads ground.now.texts.now ground.now.query.now gains.now aim.edge aim.end context.now.words (entry_in aim.out ground.now.part.now aim.place result) ≡ true }
{
    if gains.conjuncts.as_slice().is_empty() {
        return first_ending(ground, gains, aim, entries, from, to);
    }
    first_holding(ground, gains, aim, entries, context, from, to)
}

// The first entry whose other end isn't below one.
fn lower(entries: &[Link], end: u32) -> usize
    requires { IsNonDecreasingBy (λ link. link.other) entries.now }
    ensures within { result ≤ length entries.now }
    ensures below { (i : ℕ) (d : Link) → i < result → (slice_index_or entries.now i d).other < end }
{
    entries.partition_point(|entry| entry.other < end)
}

// The first entry whose other end is above one.
fn upper(entries: &[Link], end: u32) -> usize
    requires { IsNonDecreasingBy (λ link. link.other) entries.now }
    ensures within { result ≤ length entries.now }
    ensures above { (i : ℕ) (d : Link) → result ≤ i → i < length entries.now → end < (slice_index_or entries.now i d).other }
{
    entries.partition_point(|entry| entry.other <= end)
}

// The entries from one on with this other end: the first of them, and the one after the last.
fn ends(entries: &[Link], from: usize, end: u32) -> (usize, usize)
    requires rising { IsNonDecreasingBy (λ link. link.other) entries.now }
    requires within { from ≤ length entries.now }
    ensures start { from ≤ result.0 }
    ensures order { result.0 ≤ result.1 }
    ensures within { result.1 ≤ length entries.now }
    ensures before { (i : ℕ) (d : Link) → from ≤ i → i < result.0 → (slice_index_or entries.now i d).other < end }
    ensures past { (i : ℕ) (d : Link) → result.1 ≤ i → i < length entries.now → end < (slice_index_or entries.now i d).other }
{
    let low = lower(entries, end).max(from);
    let high = upper(entries, end).max(low);
    (low, high)
}

// The same as `find`, where the entries with the bound end are found by halves.
fn find_end(
    ground: &Ground<'_>,
    gains: &Gains,
    aim: Aim,
    entries: &[Link],
    context: &Context,
    from: usize,
    end: u32,
) -> usize
    requires room { HasRoom ground.now.query.now }
    requires fits { GainsFit ground.now.query.now (Some aim.edge) gains.now }
    requires edge_there { aim.edge < length ground.now.query.now.variables }
    requires entries { option_map (map link_of_entry) (slice_get (lists_of aim.out ground.now.part.now) aim.place) ≡ Some entries.now }
    requires few { length entries.now < 2 ^ 32 }
    requires rising { IsNonDecreasingBy (λ link. link.other) entries.now }
    requires within { from ≤ length entries.now }
    requires end { aim.end ≡ Some end }
    ensures rising { from ≤ result }
    ensures within { result ≤ length entries.now }
    ensures passed { (i : ℕ) → from ≤ i → i < result → leads ground.now.texts.now ground.now.query.now gains.now aim.edge aim.end context.now.words (entry_in aim.out ground.now.part.now aim.place i) ≡ false }
    ensures found { result < length entries.now → leads ground.now.texts.now ground.now.query.now gains.now aim.edge aim.end context.now.words (entry_in aim.out ground.now.part.now aim.place result) ≡ true }
{
    let (first, last) = ends(entries, from, end);
    let at = first_leading(ground, gains, aim, entries, context, first, last);
    if at < last { at } else { entries.len() }
}

// The first entry from one on of which a child comes; how many there are, if none does.
fn find(
    ground: &Ground<'_>,
    gains: &Gains,
    aim: Aim,
    entries: &[Link],
    context: &Context,
    from: usize,
) -> usize
    requires room { HasRoom ground.now.query.now }
    requires fits { GainsFit ground.now.query.now (Some aim.edge) gains.now }
    requires edge_there { aim.edge < length ground.now.query.now.variables }
    requires entries { option_map (map link_of_entry) (slice_get (lists_of aim.out ground.now.part.now) aim.place) ≡ Some entries.now }
    requires few { length entries.now < 2 ^ 32 }
    requires rising { IsNonDecreasingBy (λ link. link.other) entries.now }
    requires within { from ≤ length entries.now }
    ensures rising { from ≤ result }
    ensures within { result ≤ length entries.now }
    ensures passed { (i : ℕ) → from ≤ i → i < result → leads ground.now.texts.now ground.now.query.now gains.now aim.edge aim.end context.now.words (entry_in aim.out ground.now.part.now aim.place i) ≡ false }
    ensures found { result < length entries.now → leads ground.now.texts.now ground.now.query.now gains.now aim.edge aim.end context.now.words (entry_in aim.out ground.now.part.now aim.place result) ≡ true }
{
    match aim.end {
        Some(end) if entries.len() - from > FEW_ENTRIES => {
            find_end(ground, gains, aim, entries, context, from, end)
        }
        _ => first_leading(ground, gains, aim, entries, context, from, entries.len()),
    }
}

// Puts the child along an entry into the frame. The context is copied once, to where the child waits, and what the
// entry binds is written over it there.
fn put_child(ground: &Ground<'_>, gains: &Gains, step: Step, entry: Link, frame: &mut Frame)
    requires room { HasRoom ground.now.query.now }
    requires fits { GainsFit ground.now.query.now (Some step.edge) gains.now }
    requires edge_there { step.edge < length ground.now.query.now.variables }
    requires end_there { IsThere ground.now.query.now step.to }
    requires entry { option_map link_of_entry (entry_at step.out ground.now.part.now step.place step.number) ≡ Some entry }
    ensures { frame.new ≡ record frame.old { wait = Some (record { words = child_words ground.now.query.now gains.now step.edge step.to frame.old.context.words (entry_in step.out ground.now.part.now step.place step.number) }, entry.machine) } }
{
    frame.wait = Some((frame.context, entry.machine));
    if let Some((child, _)) = &mut frame.wait {
        bind(&mut child.words, step, entry);
        write(
            ground.part,
            ground.query,
            step.spot(),
            gains.captures.as_slice(),
            &mut child.words,
        );
    }
}

/// The way along which a hop goes, with what it binds and what is bound.
#[derive(Clone, Copy)]
struct Path {
    out: bool,
    edge: u32,
    /// The variable of the vertex at the other end, where that is new.
    to: Option<u32>,
    /// The number of the vertex at the other end, where that is bound.
    end: Option<u32>,
}

// Along the list of the current vertex.
fn seek_along(ground: &Ground<'_>, stage: &Stage, path: Path, frame: &mut Frame) -> (u64, Found)
    requires room { HasRoom ground.now.query.now }
    requires numbered { AreNumbered ground.now.part.now }
    requires rising { AreRising ground.now.part.now }
    requires there { 1 + stage.now.current < CONTEXT_WORDS }
    requires fits { GainsFit ground.now.query.now (Some path.edge) stage.now.passage }
    requires edge_there { path.edge < length ground.now.query.now.variables }
    requires end_there { IsThere ground.now.query.now path.to }
    requires along { GoesAlong ground.now.texts.now ground.now.query.now ground.now.part.now stage.now path.out path.edge path.to path.end frame.old.context.words }
    ensures { IsSought (answers.items_of ground.now.texts.now ground.now.query.now ground.now.part.now stage.now frame.old.context.words) frame.old result.0 result.1 frame.new }
{
    let Some(place) = place_in(ground.part, frame.context.words[1 + stage.current as usize]) else {
        return (0, Found::End);
    };
    let entries = ground.part.links(place, path.out);
    let before = frame.place;
    if before >= entries.len() as u64 {
        return (0, Found::End);
    }
    let aim = Aim {
        place,
        out: path.out,
        edge: path.edge,
        end: path.end,
    };
    let at = find(
        ground,
        &stage.passage,
        aim,
        entries,
        &frame.context,
        before as usize,
    );
    frame.place = at as u64;
    if at == entries.len() {
        return (at as u64 - before, Found::End);
    }
    let step = Step {
        place,
        out: path.out,
        number: at as u32,
        edge: path.edge,
        to: path.to,
    };
    put_child(ground, &stage.passage, step, entries[at], frame);
    frame.place += 1;
    (at as u64 - before, Found::Child)
}

// To a new vertex.
fn seek_neighbour(ground: &Ground<'_>, stage: &Stage, way: Way, frame: &mut Frame) -> (u64, Found)
    requires room { HasRoom ground.now.query.now }
    requires fits { StageFits ground.now.query.now stage.now }
    requires numbered { AreNumbered ground.now.part.now }
    requires rising { AreRising ground.now.part.now }
    requires hop { stage.now.hop ≡ hop.Neighbour way.out way.edge way.to }
    ensures { IsSought (answers.items_of ground.now.texts.now ground.now.query.now ground.now.part.now stage.now frame.old.context.words) frame.old result.0 result.1 frame.new }
{
    // What it promises keeps the places below within the context's words.
    let _word = first_word(&frame.context);
    if !others_told(ground, &stage.passage, way.edge, &frame.context) {
        return (0, Found::End);
    }
    let path = Path {
        out: way.out,
        edge: way.edge,
        to: Some(way.to),
        end: None,
    };
    seek_along(ground, stage, path, frame)
}

// To a vertex that is bound.
fn seek_bound(ground: &Ground<'_>, stage: &Stage, way: Way, frame: &mut Frame) -> (u64, Found)
    requires room { HasRoom ground.now.query.now }
    requires fits { StageFits ground.now.query.now stage.now }
    requires numbered { AreNumbered ground.now.part.now }
    requires rising { AreRising ground.now.part.now }
    requires hop { stage.now.hop ≡ hop.Edge way.out way.edge way.to }
    ensures { IsSought (answers.items_of ground.now.texts.now ground.now.query.now ground.now.part.now stage.now frame.old.context.words) frame.old result.0 result.1 frame.new }
{
    // What it promises keeps the places below within the context's words.
    let _word = first_word(&frame.context);
    let end = frame.context.words[1 + way.to as usize];
    if end >= u64::from(ground.part.graph_vertices())
        || !others_told(ground, &stage.passage, way.edge, &frame.context)
    {
        return (0, Found::End);
    }
    let path = Path {
        out: way.out,
        edge: way.edge,
        to: None,
        end: Some(end as u32),
    };
    seek_along(ground, stage, path, frame)
}

// Back to a vertex that is bound.
fn seek_inspected(
    ground: &Ground<'_>,
    stage: &Stage,
    variable: u32,
    frame: &mut Frame,
) -> (u64, Found)
    requires room { HasRoom ground.now.query.now }
    requires fits { StageFits ground.now.query.now stage.now }
    requires hop { stage.now.hop ≡ hop.Inspect variable }
    ensures { IsSought (answers.items_of ground.now.texts.now ground.now.query.now ground.now.part.now stage.now frame.old.context.words) frame.old result.0 result.1 frame.new }
{
    let vertex = frame.context.words[1 + variable as usize];
    if frame.place != 0 || vertex >= u64::from(ground.part.graph_vertices()) {
        return (0, Found::End);
    }
    frame.wait = Some((frame.context, ground.part.machine_of(vertex as u32)));
    frame.place = 1;
    (0, Found::Child)
}

// The row of a context that has arrived at the last stage, told without it.
fn seek_row(frame: &mut Frame) -> (u64, Found)
    ensures { IsSought (Leaf frame.old.context ∷ []) frame.old result.0 result.1 frame.new }
{
    if frame.place != 0 {
        return (0, Found::End);
    }
    frame.place = 1;
    (0, Found::Row)
}

// From a place on of a context that has arrived.
fn seek_on(ground: &Ground<'_>, stage: &Stage, frame: &mut Frame) -> (u64, Found)
    requires room { HasRoom ground.now.query.now }
    requires fits { StageFits ground.now.query.now stage.now }
    requires numbered { AreNumbered ground.now.part.now }
    requires rising { AreRising ground.now.part.now }
    ensures { IsSought (answers.items_of ground.now.texts.now ground.now.query.now ground.now.part.now stage.now frame.old.context.words) frame.old result.0 result.1 frame.new }
{
    match stage.hop {
        Hop::Neighbour { out, edge, to } => {
            seek_neighbour(ground, stage, Way { out, edge, to }, frame)
        }
        Hop::Edge { out, edge, to } => seek_bound(ground, stage, Way { out, edge, to }, frame),
        Hop::Inspect(variable) => seek_inspected(ground, stage, variable, frame),
        Hop::Output => seek_row(frame),
        Hop::Root(_) => (0, Found::End),
    }
}

// From the first place on: the context arrives, and keeps what is written then where an answer follows.
fn seek_first(ground: &Ground<'_>, stage: &Stage, frame: &mut Frame) -> (u64, Found)
    requires room { HasRoom ground.now.query.now }
    requires fits { StageFits ground.now.query.now stage.now }
    requires numbered { AreNumbered ground.now.part.now }
    requires rising { AreRising ground.now.part.now }
    requires first { frame.old.place ≡ 0 }
    ensures { IsFirstSought ground.now.texts.now ground.now.query.now ground.now.part.now stage.now frame.old result.0 result.1 frame.new
        (answers.arrived ground.now.texts.now ground.now.query.now ground.now.part.now stage.now frame.old.context.words) }
{
    let before = frame.context;
    if !arrive(ground, stage, &mut frame.context) {
        return (0, Found::End);
    }
    let (passed, found) = seek_on(ground, stage, frame);
    if passed == 0 && found == Found::End {
        frame.context = before;
    }
    (passed, found)
}

/// Passes over places of a frame of which nothing comes, and takes the one after them, as `Expand::seek`.
pub(crate) fn seek(ground: &Ground<'_>, stage: &Stage, frame: &mut Frame) -> (u64, Found)
    requires room { HasRoom ground.now.query.now }
    requires fits { StageFits ground.now.query.now stage.now }
    requires numbered { AreNumbered ground.now.part.now }
    requires rising { AreRising ground.now.part.now }
    ensures first { frame.old.place ≡ 0 → IsFirstSought ground.now.texts.now ground.now.query.now ground.now.part.now stage.now frame.old result.0 result.1 frame.new
        (answers.arrived ground.now.texts.now ground.now.query.now ground.now.part.now stage.now frame.old.context.words) }
    ensures later { 0 < frame.old.place → IsSought (answers.items_of ground.now.texts.now ground.now.query.now ground.now.part.now stage.now frame.old.context.words) frame.old result.0 result.1 frame.new }
{
    if frame.place == 0 {
        return seek_first(ground, stage, frame);
    }
    seek_on(ground, stage, frame)
}
