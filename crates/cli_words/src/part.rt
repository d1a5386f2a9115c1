//! The value of `--part`.
ghost use Rattle.std.specs.Prelude.{◌≡◌, IfOk, IsSome, Some, is_some};
ghost use Rattle.std.specs.Option.{option_map};
ghost use Rattle.cli_words.specs.Values.{part_of, listed_of};

use crate::cut::cut_at_colon;
use crate::number::is_file_text;
use adfs_base::{Name, NoMemory, PartWord};
use std::alloc::Global;

// Whether the two sides of the colon are `listed` and a file of machines.
fn is_listed(before: &str, after: Option<&str>) -> bool
    ensures { result ≡ is_some (listed_of before.now (option_map (λ s. s.now) after.entry)) }
{
    match after {
        Some(file) => before == "listed" && is_file_text(file),
        None => false,
    }
}

// Whether the word is a part word.
pub(crate) fn is_part(word: &str) -> bool
    ensures { result ≡ is_some (part_of word.now) }
{
    if word == "modulo" || word == "block" {
        return true;
    }
    let (before, after) = cut_at_colon(word);
    is_listed(before, after)
}

// The file of machines.
fn listed(alloc: Global, before: &str, after: Option<&str>) -> Result<PartWord, NoMemory>
    requires { IsSome (listed_of before.now (option_map (λ s. s.now) after)) }
    ensures { IfOk result (λ part. listed_of before.now (option_map (λ s. s.now) after.entry) ≡ Some part) }
{
    let Some(file) = after else { unreachable!() };
    Ok(PartWord::Listed(Name::new(alloc, file)?))
}

// What a part word says.
pub(crate) fn part(alloc: Global, word: &str) -> Result<PartWord, NoMemory>
    requires { IsSome (part_of word.now) }
    ensures { IfOk result (λ part. part_of word.now ≡ Some part) }
{
    if word == "modulo" {
        return Ok(PartWord::Modulo);
    }
    if word == "block" {
        return Ok(PartWord::Block);
    }
    let (before, after) = cut_at_colon(word);
    listed(alloc, before, after)
}
