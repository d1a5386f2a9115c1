//! What one sees of captures before they are written, and the tests that need it.
ghost use Rattle.std.specs.Prelude.{◌≡◌, ◌≤◌, ◌<◌, ◌+◌, length};
ghost use Rattle.std.specs.List.{AllByRecursion, list_all};
ghost use Rattle.plan_tree.specs.Answers as answers;
ghost use Rattle.plan_tree.specs.Told as told;
ghost use Rattle.hop_kernels.specs.Fitting.{HasRoom, ReadsFit};
ghost use Rattle.hop_kernels.specs.Looks as looks;
ghost use Rattle.hop_kernels.specs.Looks.{IsInSight};

use crate::ground::Ground;
use crate::spot::{Spot, row_of};
use crate::words::{kind_of, word_of};
use adfs_base::{CONTEXT_WORDS, Kind, Value};
use element_store::{value_from, word_from};
use match_context::Context;
use stage_plan::Gains;
use typed_expr::{Query, passes, value};
use value_text::Texts;

/// An element at which one looks for a variable whose captures aren't written yet.
#[derive(Clone, Copy)]
pub(crate) struct Look {
    pub(crate) variable: u32,
    pub(crate) spot: Spot,
}

/// The most captures that a context has words for.
pub(crate) const MOST_CAPTURES: usize = 39;

/// The first day of the year 0000, counted from 1970-01-01.
const FIRST_DAY: i32 = -719_528;

/// The last day of the year 9999, counted from 1970-01-01.
const LAST_DAY: i32 = 2_932_896;

fn is_valid(texts: &Texts, value: Value) -> bool
    ensures { result ≡ told.is_valid texts.now value }
{
    match value {
        Value::Text(number) => number < texts.len(),
        Value::Date(day) => FIRST_DAY <= day && day <= LAST_DAY,
        _ => true,
    }
}

// Whether a word stands for a value of the kind.
fn is_told(texts: &Texts, kind: Kind, word: Option<u64>) -> bool
    ensures { result ≡ told.is_told texts.now kind word }
{
    match word {
        None => true,
        Some(number) => {
            let said = value_from(kind, word);
            is_valid(texts, said) && word_from(kind, said) == Some(number)
        }
    }
}

/// The first word of a context. Whoever reads it knows how many the context has.
pub(crate) fn first_word(context: &Context) -> u64
    ensures { length context.now.words ≡ CONTEXT_WORDS }
{
    context.words[0]
}

// The word of the capture of a place, as it is seen.
fn word_seen(ground: &Ground<'_>, look: Option<Look>, context: &Context, place: u32) -> Option<u64>
    requires room { HasRoom ground.now.query.now }
    requires there { place < length ground.now.query.now.captures }
    requires sight { IsInSight ground.now.part.now look }
    ensures { result ≡ looks.word_seen ground.now.query.now ground.now.part.now look context.now.words place }
{
    let query = ground.query;
    let capture = query.captures.as_slice()[place as usize];
    match look {
        Some(look) if look.variable == capture.variable => word_of(
            ground.part,
            look.spot,
            &row_of(ground.part, look.spot),
            &capture,
        ),
        _ => context.captured(query.variables.as_slice().len(), place as usize),
    }
}

/// Whether the word of the capture of a place stands for a value, as it is seen.
pub(crate) fn is_told_at(
    ground: &Ground<'_>,
    look: Option<Look>,
    context: &Context,
    place: u32,
) -> bool
    requires room { HasRoom ground.now.query.now }
    requires there { place < length ground.now.query.now.captures }
    requires sight { IsInSight ground.now.part.now look }
    ensures { result ≡ looks.told_seen ground.now.texts.now ground.now.query.now ground.now.part.now look context.now.words place }
{
    let kind = kind_of(ground.query.captures.as_slice()[place as usize].what);
    is_told(ground.texts, kind, word_seen(ground, look, context, place))
}

/// Whether the words of these places stand for values, as they are seen.
pub(crate) fn all_told(
    ground: &Ground<'_>,
    look: Option<Look>,
    context: &Context,
    places: &[u32],
) -> bool
    requires room { HasRoom ground.now.query.now }
    requires there { AllByRecursion (λ place. place < length ground.now.query.now.captures) places.now }
    requires sight { IsInSight ground.now.part.now look }
    ensures { result ≡ list_all (looks.told_seen ground.now.texts.now ground.now.query.now ground.now.part.now look context.now.words) places.now }
{
    for place in places {
        if !is_told_at(ground, look, context, *place) {
            return false;
        }
    }
    true
}

// The value of the capture of a place, as it is seen.
fn value_seen(ground: &Ground<'_>, look: Option<Look>, context: &Context, place: u32) -> Value
    requires room { HasRoom ground.now.query.now }
    requires there { place < length ground.now.query.now.captures }
    requires sight { IsInSight ground.now.part.now look }
    ensures { result ≡ looks.value_seen ground.now.query.now ground.now.part.now look context.now.words place }
{
    let kind = kind_of(ground.query.captures.as_slice()[place as usize].what);
    value_from(kind, word_seen(ground, look, context, place))
}

// Puts the values that are seen at these places among the values.
fn put_values(
    ground: &Ground<'_>,
    look: Option<Look>,
    context: &Context,
    places: &[u32],
    values: &mut [Value; MOST_CAPTURES],
)
    requires room { HasRoom ground.now.query.now }
    requires there { AllByRecursion (λ place. place < length ground.now.query.now.captures) places.now }
    requires sight { IsInSight ground.now.part.now look }
    ensures { values.new ≡ looks.with_values ground.now.query.now ground.now.part.now look context.now.words places.now values.old }
{
    for place in places {
        values[*place as usize] = value_seen(ground, look, context, *place);
    }
}

// Whether each of these conjuncts is true of the values.
fn all_pass(ground: &Ground<'_>, conjuncts: &[u32], values: &[Value]) -> bool
    requires { AllByRecursion (λ number. number < length ground.now.query.now.conjuncts) conjuncts.now }
    ensures { result ≡ looks.all_pass ground.now.texts.now ground.now.query.now values.now conjuncts.now }
{
    let all = ground.query.conjuncts.as_slice();
    for number in conjuncts {
        if !passes(value(&all[*number as usize], values, ground.texts)) {
            return false;
        }
    }
    true
}

/// Whether the conjuncts hold that are whole then, as it is seen. The values are a table to work in: what it has of
/// the captures that are read doesn't count.
pub(crate) fn all_hold_by(
    ground: &Ground<'_>,
    gains: &Gains,
    look: Option<Look>,
    context: &Context,
    values: &mut [Value; MOST_CAPTURES],
) -> bool
    requires room { HasRoom ground.now.query.now }
    requires fits { ReadsFit ground.now.query.now gains.now }
    requires sight { IsInSight ground.now.part.now look }
    ensures { result ≡ answers.all_hold ground.now.texts.now ground.now.query.now (looks.words_seen ground.now.query.now ground.now.part.now look context.now.words) gains.now.conjuncts }
{
    // What it promises keeps the places below within the context's words.
    let _word = first_word(context);
    put_values(ground, look, context, gains.reads.as_slice(), values);
    all_pass(ground, gains.conjuncts.as_slice(), values)
}

/// The same. No value is looked at where no conjunct is whole then.
pub(crate) fn all_hold(
    ground: &Ground<'_>,
    gains: &Gains,
    look: Option<Look>,
    context: &Context,
) -> bool
    requires room { HasRoom ground.now.query.now }
    requires fits { ReadsFit ground.now.query.now gains.now }
    requires sight { IsInSight ground.now.part.now look }
    ensures { result ≡ answers.all_hold ground.now.texts.now ground.now.query.now (looks.words_seen ground.now.query.now ground.now.part.now look context.now.words) gains.now.conjuncts }
{
    if gains.conjuncts.as_slice().is_empty() {
        return true;
    }
    let mut values = [Value::Null; MOST_CAPTURES];
    all_hold_by(ground, gains, look, context, &mut values)
}
