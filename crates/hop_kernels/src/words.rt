//! Captured values as words of a context.
ghost use Rattle.std.specs.Prelude.{◌≡◌, ◌+◌, ◌<◌, ◌≤◌, ◌^◌, IsSome, length};
ghost use Rattle.std.specs.List.{AllByRecursion};
ghost use Rattle.result_collect.specs.Contexts as contexts;
ghost use Rattle.plan_tree.specs.Told as told;
ghost use Rattle.hop_kernels.specs.Fitting.{HasRoom};
ghost use Rattle.hop_kernels.specs.Spots.{element_at, element_in};

use crate::spot::{Spot, key_of, label_of, row_of};
use adfs_base::{CONTEXT_WORDS, Kind};
use element_store::Row;
use partition::Part;
use typed_expr::{Capture, Query, What};

/// The kind of what is captured.
pub(crate) fn kind_of(what: What) -> Kind
    ensures { result ≡ contexts.kind_of what }
{
    match what {
        What::Property(_, kind) => kind,
        What::Id => Kind::Int,
        What::Label => Kind::Text,
    }
}

/// The word of what is captured of an element, whose row that is.
#[inline]
pub(crate) fn word_of(part: &Part, spot: Spot, row: &Row<'_>, capture: &Capture) -> Option<u64>
    requires element { IsSome (element_at part.now spot) }
    requires row { row.now.1 ≡ (element_in part.now spot).values }
    ensures { result ≡ told.word_of (element_in part.now spot) capture.now }
{
    match capture.what {
        What::Property(property, kind) => row.word(property, kind),
        What::Id => Some(key_of(part, spot).cast_unsigned()),
        What::Label => Some(u64::from(label_of(part, spot))),
    }
}

// The word of what the capture of a place captures of an element, whose row that is.
fn word_at(part: &Part, query: &Query, spot: Spot, row: &Row<'_>, place: u32) -> Option<u64>
    requires there { place < length query.now.captures }
    requires element { IsSome (element_at part.now spot) }
    requires row { row.now.1 ≡ (element_in part.now spot).values }
    ensures { result ≡ told.word_at query.now (element_in part.now spot) place }
{
    word_of(part, spot, row, &query.captures.as_slice()[place as usize])
}

// Writes a captured value, or its null bit.
fn put_capture(
    words: &mut [u64; CONTEXT_WORDS as usize],
    variables: usize,
    place: usize,
    word: Option<u64>,
)
    requires { 1 + variables + place < CONTEXT_WORDS }
    ensures { words.new ≡ told.with_capture variables place word words.old }
{
    let bit = 1u64 << place;
    match word {
        None => {
            words[0] |= bit;
            words[1 + variables + place] = 0;
        }
        Some(word) => {
            words[0] &= !bit;
            words[1 + variables + place] = word;
        }
    }
}

/// Writes these captures of an element.
pub(crate) fn write(
    part: &Part,
    query: &Query,
    spot: Spot,
    places: &[u32],
    words: &mut [u64; CONTEXT_WORDS as usize],
)
    requires room { HasRoom query.now }
    requires there { AllByRecursion (λ place. place < length query.now.captures) places.now }
    requires element { IsSome (element_at part.now spot) }
    ensures { words.new ≡ told.written query.now (element_in part.now spot) places.now words.old }
{
    let variables = query.variables.as_slice().len();
    let row = row_of(part, spot);
    for place in places {
        let word = word_at(part, query, spot, &row, *place);
        put_capture(words, variables, *place as usize, word);
    }
}
