//! What the words of a run ask to be put.
ghost use Rattle.std.specs.Prelude.{◌≡◌, ◌≤◌, IfErr, IfOk, IfSome, IsOk, Ok, ◌∷◌, [], length, map, slice_index_or};
ghost use Rattle.std.specs.String.{string_bytes};
ghost use Rattle.adfs_base.specs.Files.{file_of};
ghost use Rattle.adfs_base.specs.declared.limits.TheConstants.{FILE_BYTES};
ghost use Rattle.cli_words.specs.Files.{HasItsFiles};
ghost use Rattle.cli_words.specs.Help.{help_text};
ghost use Rattle.cli_words.specs.Ranges.{IsWithinLimits};
ghost use Rattle.cli_words.specs.declared.command.Command.TheVariants as command;
ghost use Rattle.run_replies.specs.Asking.{IsAnswering};
ghost use Rattle.run_replies.specs.Causes.{FailsAt, StoreCause, WordsGive};
ghost use Rattle.run_replies.specs.Jobs.{IsInLimits};
ghost use Rattle.run_replies.specs.Outcome.{Help, file_bytes, outcome_of, work_of, work_of_files, work_of_header, work_of_seed, work_of_trace};
ghost use Rattle.run_replies.specs.Parts.{IsBeforePuts, IsOfBytes, RepliesGive};
ghost use Rattle.run_replies.specs.Reaching.{CommandReaches, HeaderReaches, JobReaches, TraceReaches, WordsReach};
ghost use Rattle.run_replies.specs.Stores.{ReadsFiles};
ghost use Rattle.run_replies.specs.Telling.{with_memory};
ghost use Rattle.run_replies.specs.Words.{AreSizes, IsSized, accepted};
ghost use Rattle.run_replies.specs.declared.load.TheConstants.{TRACE_FILE};
ghost use Rattle.run_status.specs.Faults.{with_replay_status};
ghost use Rattle.run_status.specs.Steps.{◌>>~◌};
ghost use Rattle.trace_text.specs.Headers.{Follows};

use crate::answer::answer_given;
use crate::job::load_given;
use crate::load::{TRACE_FILE, load_file};
use crate::setup::{generated_shape, header_of};
use crate::traces::{Events, take_given, trace_given};
use crate::words::accepted;
use adfs_base::{NoMemory, Store};
use cli_words::{Command, Options, usage_text};
use generated_reply::generated_reply;
use query_replies::Replies;
use run_status::{Status, status_of_replay};
use run_trace::{Header, ReplayFault, read_header};
use std::alloc::Global;

// The help text alone.
fn help_texts(alloc: Global) -> Result<Vec<Vec<u8>>, NoMemory>
    ensures { IfOk result (λ texts. map (λ text. text.items) texts.items ≡ help_text ∷ []) }
{
    let texts = vec![in alloc; usage_text(alloc)?]?;
    Ok(texts)
}

// What `help` puts.
fn help(alloc: Global) -> Result<Replies, Status>
    ensures gives { RepliesGive result (Ok Help) }
    ensures status { IfErr result IsOfBytes }
{
    match help_texts(alloc) {
        Ok(texts) => Ok(Replies {
            texts,
            refused: false,
        }),
        Err(_) => Err(Status::NoMemory),
    }
}

// What was made, unless memory ran out.
fn or_memory(made: Result<Replies, NoMemory>) -> Result<Replies, Status>
    ensures { result ≡ with_memory made }
{
    match made {
        Ok(replies) => Ok(replies),
        Err(_) => Err(Status::NoMemory),
    }
}

// What was told, or the status of the trace that can't be taken again.
fn or_refused(told: Result<Replies, ReplayFault>) -> Result<Replies, Status>
    ensures { result ≡ with_replay_status told }
{
    match told {
        Ok(replies) => Ok(replies),
        Err(fault) => Err(status_of_replay(fault)),
    }
}

// What `run` and `plan` put, which are on this.
fn answer_files<S: Store>(
    alloc: Global,
    store: &mut S,
    command: Command,
    header: &Header,
) -> Result<Replies, Status>
    requires limits { IsInLimits header.now }
    requires answering { IsAnswering command }
    ensures gives { IfSome (S.files store.old) (λ files. RepliesGive result (work_of_files command files header.now)) }
    ensures reads { ReadsFiles (JobReaches header.now) (S.files store.old, S.faults store.old, S.misses store.old) (S.files store.new, S.faults store.new, S.misses store.new) result }
{
    match load_given(alloc, store, header) {
        Ok(given) => or_memory(answer_given(alloc, command, header, given)),
        Err(status) => Err(status),
    }
}

// What `trace` puts, which is on this.
fn trace_files<S: Store>(
    alloc: Global,
    store: &mut S,
    header: &Header,
    schedule: u64,
) -> Result<Replies, Status>
    requires limits { IsInLimits header.now }
    ensures gives { IfSome (S.files store.old) (λ files. RepliesGive result (work_of_files command.Trace files header.now)) }
    ensures reads { ReadsFiles (JobReaches header.now) (S.files store.old, S.faults store.old, S.misses store.old) (S.files store.new, S.faults store.new, S.misses store.new) result }
{
    match load_given(alloc, store, header) {
        Ok(given) => or_memory(trace_given(alloc, header, schedule, given)),
        Err(status) => Err(status),
    }
}

// What is told of a trace with this header.
fn take_files<S: Store>(
    alloc: Global,
    store: &mut S,
    header: &Header,
    events: Events<'_>,
) -> Result<Replies, Status>
    requires limits { IsInLimits header.now }
    requires short { length events.bytes.now ≤ FILE_BYTES }
    requires follows { Follows events.bytes.now 5 events.from }
    ensures gives { IfSome (S.files store.old) (λ files. RepliesGive result (work_of_header files events.entry.bytes.now header.now)) }
    ensures reads { ReadsFiles (JobReaches header.now) (S.files store.old, S.faults store.old, S.misses store.old) (S.files store.new, S.faults store.new, S.misses store.new) result }
{
    match load_given(alloc, store, header) {
        Ok(given) => or_refused(take_given(alloc, header, events, given)),
        Err(status) => Err(status),
    }
}

// What is told of a trace of these bytes.
fn take_bytes<S: Store>(alloc: Global, store: &mut S, bytes: &[u8]) -> Result<Replies, Status>
    requires { length bytes.now ≤ FILE_BYTES }
    ensures gives { IfSome (S.files store.old) (λ files. RepliesGive result (work_of_trace files bytes.now)) }
    ensures reads { ReadsFiles (HeaderReaches bytes.now) (S.files store.old, S.faults store.old, S.misses store.old) (S.files store.new, S.faults store.new, S.misses store.new) result }
{
    match read_header(alloc, bytes) {
        Ok((header, from)) => take_files(alloc, store, &header, Events { bytes, from }),
        Err(fault) => Err(status_of_replay(fault)),
    }
}

// What is told of the trace of this name.
fn take_trace<S: Store>(alloc: Global, store: &mut S, name: &str) -> Result<Replies, Status>
    ensures gives { IfSome (S.files store.old) (λ files. RepliesGive result (file_bytes TRACE_FILE (file_of name.now files) >>~ work_of_trace files)) }
    ensures reads { ReadsFiles (TraceReaches name.now) (S.files store.old, S.faults store.old, S.misses store.old) (S.files store.new, S.faults store.new, S.misses store.new) result }
{
    match load_file(alloc, store, TRACE_FILE, name) {
        Ok(bytes) => take_bytes(alloc, store, &bytes),
        Err(status) => Err(status),
    }
}

fn trace_name(options: &Options) -> &str
    requires { length options.now.files ≡ 1 }
    ensures { result.now ≡ slice_index_or options.now.files 0 [] }
{
    options.files.names()[0].text()
}

// The summary of the graph of a seed.
fn generate(alloc: Global, options: &Options) -> Result<Replies, Status>
    requires limits { IsWithinLimits options.now }
    requires sizes { AreSizes options.now.vertices options.now.edges }
    ensures gives { RepliesGive result (work_of_seed options.now.seed options.now.vertices options.now.edges) }
    ensures status { IfErr result IsOfBytes }
{
    let shape = generated_shape(options);
    match generated_reply(alloc, options.seed, options.vertices, options.edges, &shape) {
        Ok(replies) => Ok(replies),
        Err(_) => Err(Status::NoMemory),
    }
}

// What the options ask to be put.
fn replies_of<S: Store>(alloc: Global, store: &mut S, options: Options) -> Result<Replies, Status>
    requires files { HasItsFiles options }
    requires limits { IsWithinLimits options }
    requires sizes { IsSized options }
    ensures gives { IfSome (S.files store.old) (λ files. RepliesGive result (work_of files options)) }
    ensures reads { ReadsFiles (CommandReaches options.command options) (S.files store.old, S.faults store.old, S.misses store.old) (S.files store.new, S.faults store.new, S.misses store.new) result }
{
    match options.command {
        Command::Run => answer_files(alloc, store, Command::Run, &header_of(options)),
        Command::Plan => answer_files(alloc, store, Command::Plan, &header_of(options)),
        Command::Trace => {
            let schedule = options.seed;
            trace_files(alloc, store, &header_of(options), schedule)
        }
        Command::Replay => take_trace(alloc, store, trace_name(&options)),
        Command::Gen => generate(alloc, &options),
        Command::Help => help(alloc),
    }
}

/// What the words ask to be put.
pub fn replies_to<S: Store>(
    alloc: Global,
    words: &[String],
    store: &mut S,
) -> Result<Replies, Status>
    ensures gives { IfSome (S.files store.old) (λ files. RepliesGive result (outcome_of (map string_bytes words.now) files)) }
    ensures accepted { IfOk result (λ _. IsOk (accepted (map string_bytes words.now))) }
    ensures words { IfErr result (λ status. WordsGive status (accepted (map string_bytes words.now))) }
    ensures cause { IfErr result (λ status. StoreCause status (S.files store.old) (S.faults store.old) (S.faults store.new) (S.misses store.old) (S.misses store.new)) }
    ensures status { IfErr result IsBeforePuts }
    ensures place { IfErr result (FailsAt (WordsReach (accepted (map string_bytes words.now)) (S.files store.old))) }
    ensures kept { S.files store.new ≡ S.files store.old }
{
    match accepted(alloc, words) {
        Ok(options) => replies_of(alloc, store, options),
        Err(status) => Err(status),
    }
}
