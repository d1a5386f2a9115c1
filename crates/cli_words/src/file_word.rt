//! What a word that is no option must be.
ghost use Rattle.std.specs.Prelude.{◌≡◌, IfOk, IsSome, Some, option_map};
ghost use Rattle.clap.specs.Words.{first_of, found_of, rows_of};
ghost use Rattle.cli_words.specs.FormOnly.{only_vertices};
ghost use Rattle.cli_words.specs.Rows.{file_word_name};
ghost use Rattle.cli_words.specs.Values.{with_file_word};

use crate::number::{is_edges, is_file_text, is_in, number_in, number_said};
use crate::options::Options;
use adfs_base::{Name, NoMemory};
use clap::ArgMatches;
use std::alloc::Global;

// A word that stands in a command's row by its place.
#[derive(Clone, Copy, Debug, PartialEq, Eq)]
pub enum FileWord {
    // The file that lists the graph's tables.
    Manifest,
    // The file of queries.
    Queries,
    // The file of a trace.
    Trace,
    // The seed of a made graph.
    Seed,
    // How many vertices a made graph has.
    Vertices,
    // How many edges it has.
    Edges,
}

impl FileWord {
    // How the help text calls it.
    pub(crate) fn name(self) -> &'static str
        ensures { result.now ≡ file_word_name self }
    {
        match self {
            FileWord::Manifest => "MANIFEST",
            FileWord::Queries => "QUERIES",
            FileWord::Trace => "FILE",
            FileWord::Seed => "SEED",
            FileWord::Vertices => "VERTICES",
            FileWord::Edges => "EDGES",
        }
    }

    // What `clap` found for it.
    #[tactic(auto, using(crate::proofs::TakingSteps::got_first))]
    pub(crate) fn found_in<'a>(self, matches: &ArgMatches<'a>) -> Option<&'a str>
        ensures { option_map (λ s. s.now) result ≡ first_of (file_word_name self) (rows_of (found_of matches.now)) }
    {
        matches.get_str(self.name())
    }

    // Where the word may stand in this place, how many vertices the words then say: what the number of edges is bound by.
    pub(crate) fn vertices_after(self, word: &str, vertices: u64) -> Option<u64>
        ensures { result ≡ option_map (λ options. options.vertices) (with_file_word self word.now (only_vertices vertices)) }
    {
        let may_stand = match self {
            FileWord::Manifest | FileWord::Queries | FileWord::Trace => is_file_text(word),
            FileWord::Seed => is_in(word, 0, u64::MAX),
            FileWord::Vertices => return number_in(word, 1, 200_000),
            FileWord::Edges => is_edges(word, vertices),
        };
        if may_stand { Some(vertices) } else { None }
    }

    // The options with what the word says, which may stand in this place.
    pub(crate) fn into_options(
        self,
        alloc: Global,
        word: &str,
        mut options: Options,
    ) -> Result<Options, NoMemory>
        requires { IsSome (with_file_word self word.now options) }
        ensures { IfOk result (λ new. with_file_word self word.now options ≡ Some new) }
    {
        match self {
            FileWord::Manifest | FileWord::Queries | FileWord::Trace => {
                options.files.push(Name::new(alloc, word)?)?;
            }
            FileWord::Seed => options.seed = number_said(word),
            FileWord::Vertices => options.vertices = number_said(word),
            FileWord::Edges => options.edges = number_said(word),
        }
        Ok(options)
    }
}
