//! The commands, each with its name, its file words and its options.
ghost use Rattle.std.specs.Prelude.{◌≡◌};
ghost use Rattle.cli_words.specs.Rows.{command_name, command_named, file_words_of, settings_of};

use crate::file_word::FileWord;
use crate::setting::Setting;

/// What the program is asked to do. It is the first word.
#[derive(Clone, Copy, Debug, PartialEq, Eq)]
pub enum Command {
    /// Answer a file of queries over a graph.
    Run,
    /// Answer it on one thread, and write the steps that were taken.
    Trace,
    /// Take the steps of a trace again, and check each.
    Replay,
    /// Write how each query would be run.
    Plan,
    /// Make a graph of random vertices and edges, and answer a query over it.
    Gen,
    /// Write the help text.
    Help,
}

// All of them, in the order of the help text.
const COMMANDS: [Command; 6] = [
    Command::Run,
    Command::Trace,
    Command::Replay,
    Command::Plan,
    Command::Gen,
    Command::Help,
];

impl Command {
    /// The word of the command.
    pub fn name(self) -> &'static str
        ensures { result.now ≡ command_name self }
    {
        match self {
            Command::Run => "run",
            Command::Trace => "trace",
            Command::Replay => "replay",
            Command::Plan => "plan",
            Command::Gen => "gen",
            Command::Help => "help",
        }
    }

    // The file words that it has, in order.
    pub(crate) fn file_words(self) -> &'static [FileWord]
        ensures { result.now ≡ file_words_of self }
    {
        match self {
            Command::Run | Command::Trace | Command::Plan => {
                &[FileWord::Manifest, FileWord::Queries]
            }
            Command::Replay => &[FileWord::Trace],
            Command::Gen => &[FileWord::Seed, FileWord::Vertices, FileWord::Edges],
            Command::Help => &[],
        }
    }

    // The options that it has, in the order of the help text.
    pub(crate) fn settings(self) -> &'static [Setting]
        ensures { result.now ≡ settings_of self }
    {
        match self {
            Command::Run => &[
                Setting::Machines,
                Setting::Workers,
                Setting::Threads,
                Setting::Credits,
                Setting::Broad,
                Setting::Buffer,
                Setting::Part,
                Setting::Lanes,
                Setting::Pool,
            ],
            Command::Trace => &[
                Setting::Machines,
                Setting::Workers,
                Setting::Credits,
                Setting::Broad,
                Setting::Buffer,
                Setting::Part,
                Setting::Schedule,
            ],
            Command::Gen => &[
                Setting::Machines,
                Setting::Workers,
                Setting::Credits,
                Setting::Broad,
                Setting::Buffer,
            ],
            Command::Replay | Command::Plan | Command::Help => &[],
        }
    }
}

// The command of that name.
pub(crate) fn command_named(name: &str) -> Option<Command>
    ensures { result ≡ command_named name.now }
{
    COMMANDS
        .iter()
        .copied()
        .find(|command| command.name() == name)
}
