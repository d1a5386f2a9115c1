//! A match, or a part of one, in 40 words.
ghost use Rattle.std.specs.Prelude.{◌≡◌, ◌+◌, ◌<◌};
ghost use Rattle.match_context.specs.Words.{captured_in, number_in};

use adfs_base::CONTEXT_WORDS;

/// A match, or a part of one.
///
/// Word 0 holds a bit for each captured value, in their order from the lowest bit on, that says whether it is
/// null. Then comes a word for each variable with its element's number, 0 while it has none, and then a word
/// for each captured value, 0 where it is null or not captured yet: a whole number or a key and a date as
/// two's complement, a truth value as 0 or 1, a text or a label as its number. All further words are 0.
#[derive(Clone, Copy, Debug, PartialEq, Eq)]
pub struct Context {
    pub words: [u64; CONTEXT_WORDS as usize],
}

impl Context {
    /// The number of the element for which a variable stands: the lower half of its word. Words of matches are
    /// numbers of elements and have no other half; whoever has words from elsewhere looks at the whole word first.
    pub fn number(&self, variable: usize) -> u32
        requires { 1 + variable < CONTEXT_WORDS }
        ensures { result ≡ number_in self.now.words variable }
    {
        (self.words[1 + variable] % 4_294_967_296) as u32
    }

    /// The word of a captured value, which stands after those of so many variables. `None` is null.
    pub fn captured(&self, variables: usize, capture: usize) -> Option<u64>
        requires { 1 + variables + capture < CONTEXT_WORDS }
        ensures { result ≡ captured_in self.now.words variables capture }
    {
        if (self.words[0] >> capture) & 1 == 1 {
            return None;
        }
        Some(self.words[1 + variables + capture])
    }
}
