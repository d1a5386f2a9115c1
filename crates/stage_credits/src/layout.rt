//! Where each counter stands among the words of the table.
ghost use Rattle.std.specs.Prelude.{◌≡◌, ℕ, ◌+◌, ◌*◌, ◌<◌, ◌≤◌};
ghost use Rattle.stage_credits.specs.Layout.{units, stage_start, unit_of, sender_of, target_of, limit_at, cursor_of, enrolled_of, closed_word, roots_of, IsUnit, IsWord, place_of, stage_of};
ghost use Rattle.stage_credits.specs.Rule.{IsWordOf};

use crate::setup::Setup;
use adfs_base::Word;

/// The words from one row to the next: so that two rows share no line of the cache.
const ROW: u64 = 16;

/// The words from one machine's cursor to the next, a line of the cache.
const LINE: u64 = 8;

impl Setup {
    /// The workers of all machines.
    pub(crate) fn workers(&self) -> u32
        ensures value { result ≡ self.now.shape.machines * self.now.shape.workers }
        ensures some { 1 ≤ result }
    {
        self.shape.machines() * self.shape.workers()
    }

    /// The words of all rows.
    pub(crate) fn units(&self) -> u64
        ensures value { result ≡ units self.now }
        ensures bound { result ≤ 3328 }
    {
        let machines = u64::from(self.shape.machines());
        u64::from(self.shape.stages()) * (machines * ROW)
    }

    /// The unit of a sender, a stage and a target.
    pub(crate) fn unit(&self, from: u32, stage: u32, to: u32) -> u64
        requires from { from < self.now.shape.machines }
        requires stage { (1 ≤ stage) × (stage < self.now.shape.stages) }
        requires to { to < self.now.shape.machines }
        ensures value { result ≡ unit_of self.now from stage to }
        ensures unit { IsUnit self.now result }
        ensures stage { (stage_start self.now stage ≤ result) × (result < stage_start self.now (stage + 1)) }
        ensures ends { (sender_of self.now result ≡ from) × (target_of result ≡ to) }
    {
        let machines = u64::from(self.shape.machines());
        (u64::from(stage) * machines + u64::from(from)) * ROW + u64::from(to)
    }

    /// How many credits a machine has to a stage of another, or of its own.
    pub(crate) fn limit(&self, from: u32, to: u32) -> u32
        requires from { from < self.now.shape.machines }
        requires to { to < self.now.shape.machines }
        ensures { (stage : ℕ) → result ≡ limit_at self.now (unit_of self.now from stage to) }
    {
        let machines = self.shape.machines();
        prove!(to < machines && machines <= 8);
        self.shape.limit(from, to)
    }

    /// How many roots a machine has.
    pub(crate) fn end(&self, machine: u32) -> u64
        requires { machine < self.now.shape.machines }
        ensures { result ≡ roots_of self.now machine }
    {
        let roots = &self.roots[..self.shape.machines() as usize];
        roots[machine as usize]
    }

    /// Where a machine's cursor stands.
    pub(crate) fn cursor(&self, machine: u32) -> u64
        requires { machine < self.now.shape.machines }
        ensures { result ≡ cursor_of self.now machine }
    {
        2 * self.units() + LINE * u64::from(machine)
    }

    /// Where a machine's number of enrolled workers stands.
    pub(crate) fn enrolled(&self, machine: u32) -> u64
        requires { machine < self.now.shape.machines }
        ensures { result ≡ enrolled_of self.now machine }
    {
        let first = 2 * self.units() + LINE * u64::from(self.shape.machines());
        first + LINE * u64::from(machine)
    }

    /// Where `closed` stands.
    pub(crate) fn closed(&self) -> u64
        ensures value { result ≡ closed_word self.now }
        ensures bound { result ≤ 6784 }
    {
        2 * self.units() + 2 * LINE * u64::from(self.shape.machines())
    }

    /// Where a word that must be 0 before its stage closes stands.
    pub(crate) fn place(&self, word: Word) -> u64
        requires { IsWord self.now.shape word }
        ensures value { result ≡ place_of self.now word }
        ensures stage { IsWordOf self.now (stage_of word) result }
    {
        match word {
            Word::Enrolled(machine) => self.enrolled(machine),
            Word::Used { from, stage, to } => self.unit(from, stage, to),
        }
    }
}
