//! The next answer of a context.
ghost use Rattle.std.specs.Prelude.{◌≡◌, ◌+◌, ◌<◌, ◌≤◌, length};
ghost use Rattle.adfs_base.specs.declared.limits.TheConstants.{CONTEXT_WORDS};
ghost use Rattle.match_context.specs.Tree.{answer};
ghost use Rattle.typed_expr.specs.WellFormed.{IsWellFormed};
ghost use Rattle.stage_plan.specs.Plans.{plan_of, words_of};
ghost use Rattle.stage_plan.specs.declared.hop.Hop.TheVariants as hop;
ghost use Rattle.plan_tree.specs.Answers as answers;
ghost use Rattle.hop_kernels.specs.Entries.{IsLow, after_answer};
ghost use Rattle.hop_kernels.specs.Frames.{ahead_of, frame_after};
ghost use Rattle.hop_kernels.specs.Fitting.{HasRoom, StageFits};
ghost use Rattle.hop_kernels.specs.Spots.{AreNumbered};

use crate::arrival::arrive;
use crate::ground::Ground;
use crate::hops::hop_answer;
use crate::labels::text_tests;
use match_context::{Context, Frame, Next};
use partition::Part;
use stage_plan::{Hop, Plan, Stage};
use typed_expr::Query;
use value_text::Texts;

// The row of a context at the last stage, if it arrives there.
fn row(ground: &Ground<'_>, stage: &Stage, context: &mut Context) -> Next
    requires room { HasRoom ground.now.query.now }
    requires fits { StageFits ground.now.query.now stage.now }
    requires numbered { AreNumbered ground.now.part.now }
    requires last { stage.now.hop ≡ hop.Output }
    ensures answer { result ≡ answer (answers.ahead ground.now.texts.now ground.now.query.now ground.now.part.now stage.now context.old.words 0) }
    ensures words { context.new.words ≡ answers.words_after ground.now.texts.now ground.now.query.now ground.now.part.now stage.now context.old.words 0 }
{
    if arrive(ground, stage, context) {
        Next::Row(*context)
    } else {
        Next::End
    }
}

// The first answer of a context: it arrives, and keeps what is written then where an answer follows.
fn first(ground: &Ground<'_>, stage: &Stage, context: &mut Context) -> Next
    requires room { HasRoom ground.now.query.now }
    requires fits { StageFits ground.now.query.now stage.now }
    requires numbered { AreNumbered ground.now.part.now }
    ensures answer { result ≡ answer (answers.ahead ground.now.texts.now ground.now.query.now ground.now.part.now stage.now context.old.words 0) }
    ensures words { context.new.words ≡ answers.words_after ground.now.texts.now ground.now.query.now ground.now.part.now stage.now context.old.words 0 }
{
    // A row follows each arrival at the last stage, so nothing has to be kept for it.
    if let Hop::Output = stage.hop {
        return row(ground, stage, context);
    }
    let before = *context;
    if !arrive(ground, stage, context) {
        return Next::End;
    }
    let next = hop_answer(ground, stage, context, 0);
    if let Next::End = next {
        *context = before;
    }
    next
}

/// The next answer of a context at a place of a stage: the first of `ahead`. It is total on contexts.
pub(crate) fn next(
    ground: &Ground<'_>,
    stage: &Stage,
    context: &mut Context,
    place: &mut u64,
) -> Next
    requires room { HasRoom ground.now.query.now }
    requires fits { StageFits ground.now.query.now stage.now }
    requires numbered { AreNumbered ground.now.part.now }
    ensures answer { result ≡ answer (answers.ahead ground.now.texts.now ground.now.query.now ground.now.part.now stage.now context.old.words place.old) }
    ensures words { context.new.words ≡ answers.words_after ground.now.texts.now ground.now.query.now ground.now.part.now stage.now context.old.words place.old }
    ensures place { place.new ≡ answers.place_after ground.now.texts.now ground.now.query.now ground.now.part.now stage.now context.old.words place.old }
{
    if *place == 0 {
        let next = first(ground, stage, context);
        *place = count_on(&next, 0);
        return next;
    }
    let next = hop_answer(ground, stage, context, *place);
    *place = count_on(&next, *place);
    next
}

// The place after an answer.
fn count_on(next: &Next, place: u64) -> u64
    requires { IsLow next.now place }
    ensures { result ≡ after_answer next.now place (place + 1) }
{
    match next {
        Next::End => place,
        _ => place + 1,
    }
}

/// Takes the answers of a plan's contexts, on the part of one machine.
pub struct Kernel;

impl Kernel {
    /// The frame's next answer: the first that is ahead of its context at its place. Of the frame it changes the
    /// context and the place alone, and nothing where no answer is ahead. It is total on contexts.
    pub fn next(part: &Part, plan: &Plan, query: &Query, texts: &Texts, frame: &mut Frame) -> Next
        requires plan { plan.now ≡ plan_of query.now }
        requires well { IsWellFormed query.now }
        requires room { words_of query.now ≤ CONTEXT_WORDS }
        requires numbered { AreNumbered part.now }
        requires stage { frame.old.stage < length plan.now.stages }
        ensures answer { result ≡ answer (ahead_of texts.now query.now part.now plan.now frame.old) }
        ensures changed { frame.new ≡ frame_after texts.now query.now part.now plan.now frame.old }
    {
        let tests = text_tests();
        let ground = Ground {
            texts,
            query,
            part,
            tests: &tests,
        };
        let stage = &plan.list()[frame.stage as usize];
        next(&ground, stage, &mut frame.context, &mut frame.place)
    }
}
