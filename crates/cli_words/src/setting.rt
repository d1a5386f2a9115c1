//! The options, each with its name and its range.
ghost use Rattle.std.specs.Prelude.{◌≡◌, IfOk, IsSome, Some, is_some, option_map};
ghost use Rattle.clap.specs.Words.{first_of, found_of, rows_of};
ghost use Rattle.cli_words.specs.Line.{long_name};
ghost use Rattle.cli_words.specs.Rows.{setting_name};
ghost use Rattle.cli_words.specs.Values.{with_setting};
ghost use Rattle.cli_words.specs.declared.options.Options.{Options};

use crate::number::{is_in, number_said};
use crate::options::Options;
use crate::part::{is_part, part};
use adfs_base::NoMemory;
use clap::ArgMatches;
use std::alloc::Global;

// An option of the command line.
#[derive(Clone, Copy, Debug, PartialEq, Eq)]
pub enum Setting {
    Machines,
    Workers,
    Threads,
    Credits,
    Broad,
    Buffer,
    Part,
    Lanes,
    Pool,
    Schedule,
}

impl Setting {
    // The word that names it.
    pub(crate) fn name(self) -> &'static str
        ensures { result.now ≡ setting_name self }
    {
        match self {
            Setting::Machines => "--machines",
            Setting::Workers => "--workers",
            Setting::Threads => "--threads",
            Setting::Credits => "--credits",
            Setting::Broad => "--broad",
            Setting::Buffer => "--buffer",
            Setting::Part => "--part",
            Setting::Lanes => "--lanes",
            Setting::Pool => "--pool",
            Setting::Schedule => "--schedule",
        }
    }

    // The same without its hyphens.
    pub(crate) fn long_name(self) -> &'static str
        ensures { result.now ≡ long_name self }
    {
        &self.name()[2..]
    }

    // What `clap` found for it.
    #[tactic(auto, using(crate::proofs::TakingSteps::got_first))]
    pub(crate) fn found_in<'a>(self, matches: &ArgMatches<'a>) -> Option<&'a str>
        ensures { option_map (λ s. s.now) result ≡ first_of (long_name self) (rows_of (found_of matches.now)) }
    {
        matches.get_str(self.long_name())
    }

    // Whether the word is a value of it, in its range.
    pub(crate) fn takes(self, word: &str) -> bool
        ensures { (options : Options) → result ≡ is_some (with_setting self word.now options) }
    {
        match self {
            Setting::Machines => is_in(word, 1, 8),
            Setting::Workers => is_in(word, 1, 8),
            Setting::Threads => is_in(word, 0, 64),
            Setting::Credits => is_in(word, 1, 8),
            Setting::Broad => is_in(word, 0, 16),
            Setting::Buffer => is_in(word, 1, 64),
            Setting::Part => is_part(word),
            Setting::Lanes => is_in(word, 1, 8),
            Setting::Pool => is_in(word, 1, 115_200),
            Setting::Schedule => is_in(word, 0, u64::MAX),
        }
    }

    // The options with the value that the word says, which is one of it.
    pub(crate) fn into_options(
        self,
        alloc: Global,
        word: &str,
        mut options: Options,
    ) -> Result<Options, NoMemory>
        requires { IsSome (with_setting self word.now options) }
        ensures { IfOk result (λ new. with_setting self word.now options ≡ Some new) }
    {
        match self {
            Setting::Machines => options.machines = number_said(word) as u32,
            Setting::Workers => options.workers = number_said(word) as u32,
            Setting::Threads => options.threads = number_said(word) as u32,
            Setting::Credits => options.credits = number_said(word) as u32,
            Setting::Broad => options.broad = number_said(word) as u32,
            Setting::Buffer => options.buffer = number_said(word) as u32,
            Setting::Part => options.part = part(alloc, word)?,
            Setting::Lanes => options.lanes = number_said(word) as u32,
            Setting::Pool => options.pool = number_said(word),
            Setting::Schedule => options.seed = number_said(word),
        }
        Ok(options)
    }
}
