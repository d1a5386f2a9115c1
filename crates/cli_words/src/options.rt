//! What a command line asks for.
ghost use Rattle.std.specs.Prelude.{◌≡◌, ◌++◌, ◌∷◌, [], OnOk};
ghost use Rattle.cli_words.specs.Defaults.{options_at_first};

use crate::Command;
use adfs_base::{Name, PartWord};
use std::alloc::{AllocFailed, Global};
use std::marker::Model;

/// The names of the files of a command line, in order. A contract sees them as a list of texts.
#[derive(Drop, Debug)]
pub struct Files {
    names: Vec<Name>,
}

impl Model for Files {
    ghost use Rattle.std.specs.Prelude.{List, ℕ};

    ghost Value = { List (List ℕ) };

    ghost view = { λ f. f.names.items };
}

impl Files {
    /// These names. It takes no memory.
    pub fn new(names: Vec<Name>) -> Files
        ensures { result ≡ names.items }
    {
        Files { names }
    }

    /// The names.
    pub fn names(&self) -> &[Name]
        ensures { result.now ≡ self.now }
    {
        self.names.as_slice()
    }

    /// The names, given back. It takes no memory.
    pub fn into_names(self) -> Vec<Name>
        ensures { result.items ≡ self }
    {
        self.names
    }

    // One more, at the end.
    pub(crate) fn push(&mut self, name: Name) -> Result<(), AllocFailed<Name>>
        ensures { OnOk result (self.new ≡ self.old ++ name ∷ []) }
    {
        self.names.push(name)
    }
}

/// What a command line says.
///
/// A field that the command has no word for holds its default: 1 machine, 1 worker, 1 thread, 2 credits, a
/// broad budget of 2, 16 contexts a buffer, the part word `modulo`, 1 lane, a pool of 14,400 buffers; and 0 or
/// no file elsewhere.
#[derive(Drop, Debug)]
pub struct Options {
    /// What is asked for.
    pub command: Command,
    /// The manifest and the query file of `run`, `trace` and `plan`, or the trace of `replay`.
    pub files: Files,
    /// Between how many machines the graph is split, 1 to 8.
    pub machines: u32,
    /// How many workers each machine has, 1 to 8.
    pub workers: u32,
    /// How many threads take the workers' steps, 0 to 64; 0 is none but the caller's.
    pub threads: u32,
    /// How many buffers of one stage may be under way from one machine to another, 1 to 8.
    pub credits: u32,
    /// How many buffers of one stage may be under way from a machine to itself, 0 to 16.
    pub broad: u32,
    /// How many contexts go into a buffer, 1 to 64.
    pub buffer: u32,
    /// How the vertices are dealt out to the machines.
    pub part: PartWord,
    /// How many queries are answered beside one another, 1 to 8.
    pub lanes: u32,
    /// How many buffers the queries that run beside one another share, 1 to 115,200.
    pub pool: u64,
    /// The seed of `gen`, or the number of `--schedule`.
    pub seed: u64,
    /// How many vertices `gen` makes, 1 to 200,000.
    pub vertices: u64,
    /// How many edges `gen` makes, at most 8 for each vertex.
    pub edges: u64,
}

impl Options {
    // The defaults of a command.
    pub(crate) fn at_first(alloc: Global, command: Command) -> Options
        ensures { result ≡ options_at_first command }
    {
        Options {
            command,
            files: Files::new(Vec::new(alloc)),
            machines: 1,
            workers: 1,
            threads: 1,
            credits: 2,
            broad: 2,
            buffer: 16,
            part: PartWord::Modulo,
            lanes: 1,
            pool: 14_400,
            seed: 0,
            vertices: 0,
            edges: 0,
        }
    }
}
