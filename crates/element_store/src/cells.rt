//! Words, each of which may be missing.
//!
//! A bit beside each word says whether it is there. It is looked at only where the word is the one that stands for a
//! missing one, so nearly each word is read by one load.
ghost use Rattle.std.specs.Prelude.{◌≡◌, ◌≢◌, ℕ, ◌<◌, ◌≤◌, ◌+◌, ◌^◌, ◌++◌, ◌∷◌, [], OnOk, OnErr, Some, length, slice_get, slice_index_or, take, drop};

use crate::bits::Bits;
use std::alloc::{AllocError, Global};
use std::marker::Model;

/// The word that stands where one is missing. A word that is there may be this one too.
pub(crate) const MISSING: u64 = 0xFFFF_FFFF_8000_0000;

/// A list of words, each of which may be missing, seen as a list of options.
#[derive(Drop)]
pub(crate) struct Cells {
    words: Vec<u64>,
    present: Bits,
}

impl Model for Cells {
    ghost use Rattle.std.specs.Prelude.{List, ℕ, Option};
    ghost use Rattle.element_store.specs.Cells.{AreCells, words_where};

    ghost Value = { List (Option ℕ) };

    ghost view = { λ a. words_where a.present a.words.items };

    ghost invariant = { λ a. AreCells a.present a.words.items };
}

// So many items from a place on.
fn part_of(items: &[u64], start: usize, count: usize) -> &[u64]
    requires { start + count ≤ length items.now }
    ensures { result.now ≡ take count (drop start items.now) }
{
    &items[start..start + count]
}

impl Cells {
    /// No words.
    pub(crate) fn new(alloc: Global) -> Cells
        ensures { result ≡ [] }
    {
        Cells {
            words: Vec::new(alloc),
            present: Bits::new(alloc),
        }
    }

    /// How many words there are, those that are missing among them.
    pub(crate) fn len(&self) -> usize
        ensures length { result ≡ length self.now }
        ensures fits { length self.now < 2 ^ 63 }
    {
        self.words.len()
    }

    /// The word at a place, if it is there.
    pub(crate) fn get(&self, place: usize) -> Option<u64>
        requires { place < length self.now }
        ensures { slice_get self.now place ≡ Some result }
    {
        let word = self.words[place];
        if word != MISSING {
            return Some(word);
        }
        if self.present.get(place) {
            Some(word)
        } else {
            None
        }
    }

    /// So many words from a place on. Each that isn't the one of missing words is there.
    pub(crate) fn words(&self, start: usize, count: usize) -> &[u64]
        requires { start + count ≤ length self.now }
        ensures length { length result.now ≡ count }
        ensures there { (i : ℕ) → i < count → slice_index_or result.now i 0 ≢ MISSING → slice_get self.now (start + i) ≡ Some (Some (slice_index_or result.now i 0)) }
    {
        part_of(&self.words, start, count)
    }

    /// Adds a word at the end. After running out of memory nothing has changed.
    pub(crate) fn push(&mut self, word: Option<u64>) -> Result<(), AllocError>
        ensures ok { OnOk result (self.new ≡ self.old ++ word ∷ []) }
        ensures err { OnErr result (self.new ≡ self.old) }
    {
        let len = self.words.len();
        self.present.push(word.is_some())?;
        if self.words.push(word.unwrap_or(MISSING)).is_err() {
            self.present.truncate(len);
            return Err(AllocError);
        }
        Ok(())
    }

    /// Keeps the first words alone.
    pub(crate) fn truncate(&mut self, len: usize)
        requires { len ≤ length self.old }
        ensures { self.new ≡ take len self.old }
    {
        self.words.truncate(len);
        self.present.truncate(len);
    }
}
