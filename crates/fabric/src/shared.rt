//! What workers share, in any form: the calls, and what each may do.
ghost use Rattle.std.specs.Prelude.{◌≡◌, ◌≤◌, ℕ, MatchOption, MatchResult};
ghost use Rattle.adfs_base.specs.Shape.{Extents};
ghost use Rattle.fabric.specs.Account.{Holding, Call, ToClaim, ToRetire, ToCharge, ToFetch, ToPost, ToPush, ToPop, ToPick, ToRestore, ToDischarge, ToMark, ToClose, ToLook, Given, Nothing, Roots, Taken, Came, Seen, unlooked, at_end};
ghost use Rattle.fabric.specs.Fabric.{MayCall, Ready, Missed, OnClaimed, OnCharge, OnPick, OnMarked, OnClosing};

use adfs_base::{Charge, Claimed, Closing, Marked, Pick, Word};
use match_context::{Buffer, Message};

/// What all workers share: one call for each shared step, made by the worker `w`.
///
/// A call is either ready, and then its step is made, or it is not, and then nothing is changed but what the worker
/// may have seen. What a worker may ask for goes by what it holds (`Holding`), and each call says what it holds
/// afterwards. No call takes memory. The calls of a fabric that is shared between threads may wait.
pub trait Fabric {
    /// The worker of this number holds this.
    ghost agrees: { Self → ℕ → Holding → Type 0 };

    /// When a ready answer may come, and what it leaves.
    ghost done: { Self → ℕ → Call → Given → Self → Type 0 };

    /// When an answer that isn't ready may come.
    ghost excused: { Self → ℕ → Call → Self → Type 0 };

    /// The numbers of the run.
    ghost shape: { Self → Extents };

    /// How many roots a machine has.
    ghost roots: { Self → ℕ → ℕ };

    /// Takes the next chunk of roots of the worker's machine. Where another step came between, a retirement would
    /// not be ready either.
    fn claim(&mut self, w: u32) -> Claimed
        requires { MayCall agrees shape self.old w ToClaim }
        ensures { OnClaimed result
            (λ first end. Ready agrees done shape roots self.old w ToClaim (Roots first end) self.new)
            (Missed agrees excused shape roots at_end self.old w ToClaim self.new)
            (Missed agrees excused shape roots unlooked self.old w ToClaim self.new × excused self.old w ToRetire self.new) };

    /// The worker claims no more. It has seen that no root of its machine is left.
    fn retire(&mut self, w: u32)
        requires { MayCall agrees shape self.old w ToRetire }
        ensures { Ready agrees done shape roots self.old w ToRetire Nothing self.new };

    /// Takes a credit for a buffer to that stage of that machine.
    fn charge(&mut self, w: u32, stage: u32, to: u32) -> Charge
        requires { MayCall agrees shape self.old w (ToCharge stage to) }
        ensures { OnCharge result
            (Ready agrees done shape roots self.old w (ToCharge stage to) Nothing self.new)
            (Missed agrees excused shape roots unlooked self.old w (ToCharge stage to) self.new) };

    /// Takes an empty buffer out of the pool of the worker's machine.
    fn fetch(&mut self, w: u32) -> Option<Buffer>
        requires { MayCall agrees shape self.old w ToFetch }
        ensures { MatchOption result
            (Missed agrees excused shape roots unlooked self.old w ToFetch self.new)
            (λ buffer. Ready agrees done shape roots self.old w ToFetch (Taken buffer) self.new) };

    /// The message of a credit that the worker holds goes on its way.
    fn post(&mut self, w: u32, stage: u32, to: u32)
        requires { MayCall agrees shape self.old w (ToPost stage to) }
        ensures { Ready agrees done shape roots self.old w (ToPost stage to) Nothing self.new };

    /// Puts a message last into the inbox of its target and stage, or hands it back.
    fn push(&mut self, w: u32, message: Message) -> Result<(), Message>
        requires { MayCall agrees shape self.old w (ToPush message) }
        ensures { MatchResult result
            (λ _. Ready agrees done shape roots self.old w (ToPush message) Nothing self.new)
            (λ back. (back ≡ message) × Missed agrees excused shape roots unlooked self.old w (ToPush message) self.new) };

    /// Takes the first message of an inbox of the worker's machine.
    fn pop(&mut self, w: u32, stage: u32) -> Option<Message>
        requires { MayCall agrees shape self.old w (ToPop stage) }
        ensures { MatchOption result
            (Missed agrees excused shape roots unlooked self.old w (ToPop stage) self.new)
            (λ message. Ready agrees done shape roots self.old w (ToPop stage) (Came message) self.new) };

    /// The credit of a message that came to the worker's machine is in its work.
    fn pick(&mut self, w: u32, from: u32, stage: u32) -> Pick
        requires { MayCall agrees shape self.old w (ToPick from stage) }
        ensures { OnPick result
            (Ready agrees done shape roots self.old w (ToPick from stage) Nothing self.new)
            (Missed agrees excused shape roots unlooked self.old w (ToPick from stage) self.new) };

    /// Puts an empty buffer back into the pool of its home, or hands it back.
    fn restore(&mut self, w: u32, buffer: Buffer) -> Result<(), Buffer>
        requires { MayCall agrees shape self.old w (ToRestore buffer) }
        ensures { MatchResult result
            (λ _. Ready agrees done shape roots self.old w (ToRestore buffer) Nothing self.new)
            (λ back. (back ≡ buffer) × Missed agrees excused shape roots unlooked self.old w (ToRestore buffer) self.new) };

    /// Gives back a credit that is in the worker's work.
    fn discharge(&mut self, w: u32, from: u32, stage: u32)
        requires { MayCall agrees shape self.old w (ToDischarge from stage) }
        ensures { Ready agrees done shape roots self.old w (ToDischarge from stage) Nothing self.new };

    /// Looks whether a word of the stage that closes next is 0. The worker has just looked which stage that is.
    fn mark(&mut self, w: u32, word: Word) -> Marked
        requires { MayCall agrees shape self.old w (ToMark word) }
        ensures { OnMarked result
            (Ready agrees done shape roots self.old w (ToMark word) Nothing self.new)
            (Missed agrees excused shape roots unlooked self.old w (ToMark word) self.new) };

    /// Closes the stage all of whose words the worker has marked. It has just looked which stage that is.
    fn close(&mut self, w: u32) -> Closing
        requires { MayCall agrees shape self.old w ToClose }
        ensures { OnClosing result
            (Ready agrees done shape roots self.old w ToClose Nothing self.new)
            (Missed agrees excused shape roots unlooked self.old w ToClose self.new) };

    /// How many stages are closed. It is never fewer than the worker saw before.
    fn closed(&mut self, w: u32) -> u32
        requires { MayCall agrees shape self.old w ToLook }
        ensures seen { Ready agrees done shape roots self.old w ToLook (Seen result) self.new }
        ensures rises { (x : Holding) → agrees self.old w x → x.closed ≤ result };
}
