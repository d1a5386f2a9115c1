//! The putting of replies.
ghost use Rattle.std.specs.Prelude.{◌≡◌, map};
ghost use Rattle.adfs_base.specs.Counts.{Rose};
ghost use Rattle.adfs_top.specs.Puts.{EndsPuts, TookPart, after_puts};

use adfs_base::{Put, Sink};
use query_replies::Replies;
use run_status::Status;

// Puts texts, one after the other.
fn put_all<O: Sink>(texts: &[Vec<u8>], out: &mut O) -> Put
    ensures all { result ≡ Put.All → (O.held out.new, O.pieces out.new) ≡ after_puts (O.held out.old, O.pieces out.old) (map (λ text. text.items) texts.now) }
    ensures front { result ≡ Put.Failed → TookPart (O.held out.old, O.pieces out.old) (map (λ text. text.items) texts.now) (O.held out.new, O.pieces out.new) }
    ensures failed { result ≡ Put.Failed → Rose (O.faults out.old) (O.faults out.new) }
{
    for text in texts {
        if out.put(text) == Put::Failed {
            return Put::Failed;
        }
    }
    Put::All
}

/// Puts all replies.
pub fn put_replies<O: Sink>(replies: &Replies, out: &mut O) -> Status
    ensures ends { EndsPuts result replies.now (O.held out.old, O.pieces out.old) (O.held out.new, O.pieces out.new) }
    ensures write { result ≡ Status.WriteFault → Rose (O.faults out.old) (O.faults out.new) }
{
    match put_all(&replies.texts, out) {
        Put::All if replies.refused => Status::SomeRefused,
        Put::All => Status::Done,
        Put::Failed => Status::WriteFault,
    }
}
