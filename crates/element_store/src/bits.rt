//! Truth values as bits.

ghost use Rattle.std.specs.Prelude.{◌≡◌, ◌<◌, ◌^◌, ◌++◌, ◌∷◌, ◌==◌, [], OnOk, OnErr, length, slice_get, Some, ℕ, ◌≢◌, ◌≤◌, ◌+◌, ◌*◌, take};
ghost use Rattle.std.specs.Int.{bit_at};
ghost use Rattle.element_store.specs.Bits.{Holds, flag, flags};

use std::alloc::{AllocError, Global};
use std::marker::Model;

/// A list of truth values, a bit for each.
#[derive(Drop)]
pub(crate) struct Bits {
    words: Vec<u64>,
    len: usize,
}

impl Model for Bits {
    ghost use Rattle.std.specs.Prelude.{List, Bool};
    ghost use Rattle.element_store.specs.Bits.{flags, Holds};

    ghost Value = { List Bool };

    ghost view = { λ a. flags a.words.items a.len };

    ghost invariant = { λ a. Holds a.words.items a.len };
}

// The word with the bit at a place set to a value.
fn with_bit(word: u64, at: usize, value: bool) -> u64
    requires { at < 64 }
    ensures same { (bit_at result at == 1) ≡ value }
    ensures others { (i : ℕ) → i < 64 → i ≢ at → bit_at result i ≡ bit_at word i }
{
    if value {
        word | (1 << at)
    } else {
        word & !(1 << at)
    }
}

// Makes room for one more value.
fn make_room(words: &mut Vec<u64>, len: usize) -> Result<(), AllocError>
    requires { Holds words.old.items len }
    ensures room { OnOk result ((len < 64 * length words.new.items) × (64 * length words.new.items < len + 65)) }
    ensures same { flags words.new.items len ≡ flags words.old.items len }
    ensures err { OnErr result (words.new.items ≡ words.old.items) }
{
    if len / 64 == words.len() {
        words.push(0)?;
    }
    Ok(())
}

// Sets the value at a place.
fn set(words: &mut Vec<u64>, i: usize, value: bool)
    requires { i < 64 * length words.old.items }
    ensures flag { flag words.new.items i ≡ value }
    ensures same { flags words.new.items i ≡ flags words.old.items i }
    ensures len { length words.new.items ≡ length words.old.items }
{
    let word = words[i / 64];
    words[i / 64] = with_bit(word, i % 64, value);
}

impl Bits {
    pub(crate) fn new(alloc: Global) -> Bits
        ensures { result ≡ [] }
    {
        Bits {
            words: Vec::new(alloc),
            len: 0,
        }
    }

    /// How many values there are.
    pub(crate) fn len(&self) -> usize
        ensures { result ≡ length self.now }
    {
        self.len
    }

    /// The value at a place.
    pub(crate) fn get(&self, i: usize) -> bool
        requires { i < length self.now }
        ensures { slice_get self.now i ≡ Some result }
    {
        (self.words[i / 64] >> (i % 64)) & 1 == 1
    }

    /// Adds a value at the end.
    pub(crate) fn push(&mut self, value: bool) -> Result<(), AllocError>
        requires { length self.old < 2 ^ 63 }
        ensures ok { OnOk result (self.new ≡ self.old ++ value ∷ []) }
        ensures err { OnErr result (self.new ≡ self.old) }
    {
        make_room(&mut self.words, self.len)?;
        set(&mut self.words, self.len, value);
        self.len += 1;
        Ok(())
    }

    /// Keeps the first values alone.
    pub(crate) fn truncate(&mut self, len: usize)
        requires { len ≤ length self.old }
        ensures { self.new ≡ take len self.old }
    {
        self.words.truncate(len.div_ceil(64));
        self.len = len;
    }
}
