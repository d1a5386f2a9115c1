//! The top call.
ghost use Rattle.std.specs.Prelude.{◌≡◌, IfSome, map};
ghost use Rattle.std.specs.String.{string_bytes};
ghost use Rattle.adfs_base.specs.Counts.{Rose};
ghost use Rattle.run_replies.specs.Causes.{FailsAt, StoreCause, WordsGive};
ghost use Rattle.run_replies.specs.Outcome.{outcome_of};
ghost use Rattle.run_replies.specs.Reaching.{WordsReach};
ghost use Rattle.adfs_top.specs.Puts.{Puts, PutsNothing};
ghost use Rattle.run_replies.specs.Words.{accepted};

use crate::put::put_replies;
use adfs_base::{Sink, Store};
use run_replies::replies_to;
use run_status::Status;
use std::alloc::Global;

/// Runs the words, which are those after the program's name, on the files of a store, and puts what they ask for.
///
/// `run` answers queries, and `plan` tells how each would be answered. The work goes in this order: the words, the
/// manifest, the tables, the owner file where one is named, the query file, the queries in their order, and then a put
/// for each query. `trace` goes the same way with the first query alone, and puts a run of it, event by event, and its
/// reply. `replay` reads a trace first, and its header says what the rest is on; it puts how the run went. `gen` puts the
/// summary of a graph that follows from a seed, and `help` the help text. The status is that of the first step that doesn't
/// go well; else `SomeRefused` where a query is refused. Nothing was put unless the run came to the puts.
pub fn adfs_run_serial<S: Store, O: Sink>(
    alloc: Global,
    words: &[String],
    store: &mut S,
    out: &mut O,
) -> Status
    // Where the files are told, the status and what was put are those of the run's definition: one put for each query.
    ensures puts { IfSome (S.files store.old) (λ files. Puts result (outcome_of (map string_bytes words.now) files) (O.held out.old, O.pieces out.old) (O.held out.new, O.pieces out.new)) }
    // Whatever the store tells.
    ensures quiet { PutsNothing result (O.held out.old, O.pieces out.old) (O.held out.new, O.pieces out.new) }
    ensures words { WordsGive result (accepted (map string_bytes words.now)) }
    // Faults come only where they were met in this call.
    ensures store { StoreCause result (S.files store.old) (S.faults store.old) (S.faults store.new) (S.misses store.old) (S.misses store.new) }
    ensures write { result ≡ Status.WriteFault → Rose (O.faults out.old) (O.faults out.new) }
    // A file that can't be read, or is missing, is one that the words come to. Where the files are told, all that is loaded before it loads well.
    ensures place { FailsAt (WordsReach (accepted (map string_bytes words.now)) (S.files store.old)) result }
    // The store's files stay.
    ensures kept { S.files store.new ≡ S.files store.old }
{
    match replies_to(alloc, words, store) {
        Err(status) => status,
        Ok(replies) => put_replies(&replies, out),
    }
}
