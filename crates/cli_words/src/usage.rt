//! The help text.
ghost use Rattle.std.specs.Prelude.{◌≡◌, IfOk};
ghost use Rattle.cli_words.specs.Help.{help_text};

use adfs_base::NoMemory;
use std::alloc::Global;

const USAGE: &[u8] = b"\
run MANIFEST QUERIES [--machines VALUE] [--workers VALUE] [--threads VALUE] [--credits VALUE] [--broad VALUE] [--buffer VALUE] [--part VALUE] [--lanes VALUE] [--pool VALUE]
trace MANIFEST QUERIES [--machines VALUE] [--workers VALUE] [--credits VALUE] [--broad VALUE] [--buffer VALUE] [--part VALUE] [--schedule VALUE]
replay FILE
plan MANIFEST QUERIES
gen SEED VERTICES EDGES [--machines VALUE] [--workers VALUE] [--credits VALUE] [--broad VALUE] [--buffer VALUE]
help
";

/// The help text: a line for each command, with its file words in capitals and its options in brackets.
pub fn usage_text(alloc: Global) -> Result<Vec<u8>, NoMemory>
    ensures { IfOk result (λ text. text.items ≡ help_text) }
{
    Ok(USAGE.to_vec(alloc)?)
}
