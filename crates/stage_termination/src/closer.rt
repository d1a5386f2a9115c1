//! A worker's marks on the words of the stage that closes next.
ghost use Rattle.std.specs.Prelude.{◌≡◌, ◌≤◌, ◌<◌, false, IfSome, not, length, replicate};
ghost use Rattle.std.specs.List.{position, list_all};
ghost use Rattle.stage_termination.specs.Marks.{word_at};

use adfs_base::{Shape, Word};
use std::marker::Model;

/// The most words that a stage has: one for each pair of 8 machines.
const MOST_WORDS: usize = 64;

/// The marks of one worker, at one stage. A contract sees them as `Marks`.
#[derive(Drop)]
pub struct Closer {
    machines: u32,
    stages: u32,
    stage: u32,
    /// Whether the word of each place is marked; past the words of the stage these say nothing.
    marked: [bool; MOST_WORDS],
}

impl Model for Closer {
    ghost use Rattle.std.specs.Prelude.{◌<◌, ◌≤◌, take};
    ghost use Rattle.stage_termination.specs.Marks.{Marks, words_of};

    ghost Value = { Marks };

    ghost view = { λ c. record {
      machines = c.machines;
      stages = c.stages;
      stage = c.stage;
      marked = take (words_of c.machines c.stages c.stage) c.marked;
    } };

    ghost invariant = { λ c. (0 < c.machines) × (c.machines ≤ 8) };
}

impl Closer {
    ghost use Rattle.stage_termination.specs.Marks.{IsWordOf, place_of, next_word_of, with_mark, moved_to, unmarked, is_marked, is_ready, is_word, words_of};

    /// At stage 0, without marks.
    pub fn new(shape: &Shape) -> Closer
        ensures { result ≡ unmarked shape.now.machines shape.now.stages 0 }
    {
        Closer {
            machines: shape.machines(),
            stages: shape.stages(),
            stage: 0,
            marked: empty_table(),
        }
    }

    /// The stage whose words are marked.
    pub fn stage(&self) -> u32
        ensures { result ≡ self.now.stage }
    {
        self.stage
    }

    /// The first word of the stage without a mark. `None` where all are marked, or no stage is left.
    pub fn next_word(&self) -> Option<Word>
        ensures first { result ≡ next_word_of self.now }
        ensures of_stage { IfSome result (IsWordOf self.now) }
        ensures whole { length self.now.marked ≡ words_of self.now.machines self.now.stages self.now.stage }
    {
        let words = self.words();
        match first_unmarked(&self.marked[..words]) {
            None => None,
            Some(place) => Some(word_at(self.machines, self.stage, place as u32)),
        }
    }

    /// Whether the word is of the stage and marked.
    pub fn marked(&self, word: Word) -> bool
        ensures { result ≡ is_marked self.now word }
    {
        self.is_word(word) && self.marked[self.place(word)]
    }

    /// Marks a word of the stage.
    #[tactic(auto, using(crate::proofs::Fronts::marked_front))]
    pub fn mark(&mut self, word: Word)
        requires { IsWordOf self.old word }
        ensures { self.new ≡ with_mark self.old word }
    {
        let place = self.place(word);
        self.marked[place] = true;
    }

    /// Goes to that stage. Where it is another one, the marks are dropped.
    #[tactic(auto, using(crate::proofs::Fronts::moved_front))]
    pub fn moved(&mut self, closed: u32)
        ensures { self.new ≡ moved_to self.old closed }
    {
        if closed != self.stage {
            self.stage = closed;
            self.marked = empty_table();
        }
    }

    /// Whether all words of the stage are marked, and it is a stage.
    pub fn ready(&self) -> bool
        ensures ready { result ≡ is_ready self.now }
        ensures whole { length self.now.marked ≡ words_of self.now.machines self.now.stages self.now.stage }
    {
        let words = self.words();
        self.stage < self.stages && all_marked(&self.marked[..words])
    }

    /// How many words the stage has: none once all stages are closed.
    fn words(&self) -> usize
        ensures count { result ≡ words_of self.now.machines self.now.stages self.now.stage }
        ensures few { result ≤ 64 }
    {
        let machines = self.machines as usize;
        if self.stage >= self.stages {
            0
        } else if self.stage == 0 {
            machines
        } else {
            machines * machines
        }
    }

    /// The word's place among those of the stage.
    fn place(&self, word: Word) -> usize
        requires { IsWordOf self.now word }
        ensures at { result ≡ place_of self.now.machines word }
        ensures within { result < words_of self.now.machines self.now.stages self.now.stage }
        ensures in_table { result < 64 }
    {
        match word {
            Word::Enrolled(machine) => machine as usize,
            Word::Used { from, to, .. } => from as usize * self.machines as usize + to as usize,
        }
    }

    /// Whether the word is of the stage.
    fn is_word(&self, word: Word) -> bool
        ensures { result ≡ is_word self.now word }
    {
        match word {
            Word::Enrolled(machine) => {
                self.stage == 0 && 0 < self.stages && machine < self.machines
            }
            Word::Used { from, stage, to } => {
                0 < stage
                    && stage == self.stage
                    && stage < self.stages
                    && from < self.machines
                    && to < self.machines
            }
        }
    }
}

/// A table in which no word is marked.
fn empty_table() -> [bool; MOST_WORDS]
    ensures { result ≡ replicate 64 false }
{
    [false; MOST_WORDS]
}

/// The place of the first that is not marked.
fn first_unmarked(marked: &[bool]) -> Option<usize>
    ensures first { result ≡ position not marked.now }
    ensures within { IfSome result (λ place. place < length marked.now) }
{
    marked.iter().position(|m| !*m)
}

fn all_marked(marked: &[bool]) -> bool
    ensures { result ≡ list_all (λ m. m) marked.now }
{
    marked.iter().all(|m| *m)
}

/// The word of a place, among those of a stage.
fn word_at(machines: u32, stage: u32, place: u32) -> Word
    requires { 0 < machines }
    ensures { result ≡ word_at machines stage place }
{
    if stage == 0 {
        Word::Enrolled(place)
    } else {
        Word::Used {
            from: place / machines,
            stage,
            to: place % machines,
        }
    }
}
