//! A context arrives at a stage.
ghost use Rattle.std.specs.Prelude.{◌≡◌, ◌<◌, ◌&&◌, Some, None, IsSome, MatchOption, if◌then◌else◌, length, slice_index, ◌+◌};
ghost use Rattle.std.specs.Bool.{OnFalse};
ghost use Rattle.stage_plan.specs.declared.stage.Gains.{Gains};
ghost use Rattle.plan_tree.specs.Answers as answers;
ghost use Rattle.plan_tree.specs.Told as told;
ghost use Rattle.hop_kernels.specs.Fitting.{GainsFit, HasRoom, ReadsFit, StageFits};
ghost use Rattle.hop_kernels.specs.Looks as looks;
ghost use Rattle.hop_kernels.specs.Looks.{IsInSight, IsVertexAhead};
ghost use Rattle.hop_kernels.specs.Spots.{AreNumbered, element_at, element_in};

use crate::ground::Ground;
use crate::look::{Look, all_hold, all_told, first_word};
use crate::spot::{Spot, place_in};
use crate::words::write;
use adfs_base::CONTEXT_WORDS;
use match_context::Context;
use stage_plan::{Gains, Stage};

// The vertex at which a context arrives; none where the part lacks it or it has another label.
fn vertex_ahead(ground: &Ground<'_>, variable: u32, context: &Context) -> Option<Look>
    requires numbered { AreNumbered ground.now.part.now }
    requires there { 1 + variable < CONTEXT_WORDS }
    ensures { MatchOption result ((gains : Gains) → answers.arrived_by ground.now.texts.now ground.now.query.now ground.now.part.now gains context.now.words (Some variable) ≡ None)
        (λ look. IsVertexAhead ground.now.texts.now ground.now.query.now ground.now.part.now variable context.now.words look) }
{
    let place = place_in(ground.part, context.words[1 + variable as usize])?;
    let (_, _, label) = ground.part.vertex(place);
    if ground.is_labelled(variable, label) {
        Some(Look {
            variable,
            spot: Spot::Vertex(place),
        })
    } else {
        None
    }
}

// Whether what becomes known holds, as it is seen.
fn is_tested(ground: &Ground<'_>, gains: &Gains, look: Option<Look>, context: &Context) -> bool
    requires room { HasRoom ground.now.query.now }
    requires fits { ReadsFit ground.now.query.now gains.now }
    requires sight { IsInSight ground.now.part.now look }
    ensures { result ≡ (told.all_told ground.now.texts.now ground.now.query.now (looks.words_seen ground.now.query.now ground.now.part.now look context.now.words) gains.now.reads
        && answers.all_hold ground.now.texts.now ground.now.query.now (looks.words_seen ground.now.query.now ground.now.part.now look context.now.words) gains.now.conjuncts) }
{
    // What it promises keeps the places below within the context's words.
    let _word = first_word(context);
    all_told(ground, look, context, gains.reads.as_slice())
        && all_hold(ground, gains, look, context)
}

// At a vertex: its captures are written where the test holds.
fn arrive_at(ground: &Ground<'_>, gains: &Gains, look: Look, context: &mut Context) -> bool
    requires room { HasRoom ground.now.query.now }
    requires fits { GainsFit ground.now.query.now (Some look.variable) gains.now }
    requires sight { IsSome (element_at ground.now.part.now look.spot) }
    ensures arrived { answers.tested ground.now.texts.now ground.now.query.now gains.now
        (told.written ground.now.query.now (element_in ground.now.part.now look.spot) gains.now.captures context.old.words)
        ≡ (if result then Some context.new.words else None) }
    ensures kept { OnFalse result (context.new ≡ context.old) }
{
    if !is_tested(ground, gains, Some(look), context) {
        return false;
    }
    write(
        ground.part,
        ground.query,
        look.spot,
        gains.captures.as_slice(),
        &mut context.words,
    );
    true
}

/// Whether a context arrives at a stage. Where it doesn't, it stays as it was.
pub(crate) fn arrive(ground: &Ground<'_>, stage: &Stage, context: &mut Context) -> bool
    requires room { HasRoom ground.now.query.now }
    requires fits { StageFits ground.now.query.now stage.now }
    requires numbered { AreNumbered ground.now.part.now }
    ensures arrived { answers.arrived ground.now.texts.now ground.now.query.now ground.now.part.now stage.now context.old.words ≡ (if result then Some context.new.words else None) }
    ensures kept { OnFalse result (context.new ≡ context.old) }
{
    match stage.arriving {
        Some(variable) => match vertex_ahead(ground, variable, context) {
            Some(look) => arrive_at(ground, &stage.arrival, look, context),
            None => false,
        },
        None => is_tested(ground, &stage.arrival, None, context),
    }
}
