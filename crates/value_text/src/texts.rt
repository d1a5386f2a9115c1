//! The distinct texts of a graph.
ghost use Rattle.std.specs.Prelude.{◌≡◌, ◌≤◌, ◌+◌, ◌<◌, ◌-◌, ◌^◌, [], IfOk, IfSome, OnErr, OnOk, length, position};
ghost use Rattle.std.specs.List.{IsDistinct};
ghost use Rattle.std.specs.Str.{bytes_eq};
ghost use Rattle.value_text.specs.Texts.{Kept, number_of, with_text, text_at};

use adfs_base::NoMemory;
use indexmap::IndexSet;
use std::alloc::Global;
use std::marker::Model;

/// The distinct texts, each with its number, which counts from 0 in order of first appearance.
///
/// A contract sees the list of them.
#[derive(Drop)]
pub struct Texts {
    alloc: Global,
    set: IndexSet<Vec<u8>>,
}

impl Model for Texts {
    ghost use Rattle.std.specs.Prelude.{List, ℕ, map, length, ◌<◌, ◌^◌};
    ghost use Rattle.std.specs.List.{IsDistinct};
    ghost use Rattle.std.specs.Str.{bytes_eq};

    ghost Value = { List (List ℕ) };

    ghost view = { λ t. map (λ k. k.items) t.set.keys };

    ghost invariant = { λ t. IsDistinct bytes_eq (map (λ k. k.items) t.set.keys) × (length (map (λ k. k.items) t.set.keys) < 2 ^ 32) };
}

// A copy of a text, which is its own.
fn copied(alloc: Global, text: &[u8]) -> Result<Vec<u8>, NoMemory>
    ensures { IfOk result (λ copy. copy.items ≡ text.now) }
{
    let mut copy = Vec::new(alloc);
    copy.extend_from_slice(text)?;
    Ok(copy)
}

impl Texts {
    /// No texts. It takes no memory yet.
    pub fn new(alloc: Global) -> Texts
        ensures { result ≡ [] }
    {
        Texts {
            alloc,
            set: IndexSet::new(alloc),
        }
    }

    /// How many texts there are. They differ from one another, and there are fewer than 2^32.
    pub fn len(&self) -> u32
        ensures count { result ≡ length self.now }
        ensures distinct { IsDistinct bytes_eq self.now }
        ensures few { length self.now < 2 ^ 32 }
    {
        self.set.len() as u32
    }

    /// The text of a number.
    pub fn get(&self, number: u32) -> &[u8]
        requires { number < length self.now }
        ensures { result.now ≡ text_at self.now number }
    {
        self.set.as_slice()[number as usize].as_slice()
    }

    /// The number of a text, or `None` exactly where it isn't one of these.
    pub fn find(&self, text: &[u8]) -> Option<u32>
        ensures place { result ≡ position (bytes_eq text.now) self.now }
        ensures within { IfSome result (λ number. number < length self.now) }
    {
        match self.set.get_index_of(text) {
            Some(number) => Some(number as u32),
            None => None,
        }
    }

    // The number of a text, of which a copy is made.
    fn append(&mut self, text: &[u8]) -> Result<u32, NoMemory>
        requires { length self.old < 2 ^ 32 - 1 }
        ensures number { IfOk result (λ number. number ≡ number_of self.old text.now) }
        ensures texts { OnOk result (self.new ≡ with_text self.old text.now) }
        ensures err { OnErr result (self.new ≡ self.old) }
    {
        let copy = copied(self.alloc, text)?;
        let (number, _) = self.set.insert_full(copy)?;
        Ok(number as u32)
    }

    /// The number of a text, which goes last where it is new. The others keep their numbers.
    ///
    /// After `NoMemory` the texts are as before.
    pub fn add(&mut self, text: &[u8]) -> Result<u32, NoMemory>
        requires { length self.old < 2 ^ 32 - 1 }
        ensures number { IfOk result (λ number. number ≡ number_of self.old text.now) }
        ensures texts { IfOk result (λ number. self.new ≡ with_text self.old text.now) }
        ensures within { IfOk result (λ number. number < length self.new) }
        ensures kept { Kept self.old self.new }
        ensures err { OnErr result (self.new ≡ self.old) }
        ensures room { length self.new ≤ length self.old + 1 }
    {
        match self.find(text) {
            Some(number) => Ok(number),
            None => self.append(text),
        }
    }
}
