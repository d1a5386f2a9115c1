//! What the first lines of a trace say, in the place where they stand.
ghost use Rattle.std.specs.Prelude.{◌≡◌, ◌*◌, ℕ, IfSome, List, None, Option, Some, codes, drop, nat_le, true};
ghost use Rattle.std.specs.List.{list_all};
ghost use Rattle.std.specs.Option.{option_map};
ghost use Rattle.trace_text.specs.Headers.{after_word, are_in_limits, file_of, first_of, is_between, is_file_text, limited, listed_of, name_on, numbers_of, part_of, part_on, shape_on};
ghost use Rattle.adfs_base.specs.declared.part_word.PartWord.{PartWord};
ghost use Rattle.adfs_base.specs.declared.part_word.PartWord.TheVariants as part;
ghost use Rattle.trace_text.specs.Said.{part_seen};
ghost use Rattle.trace_text.specs.Headers.{version_on};

use crate::number::{number, triple};
use std::str;
use text_lines::cut;

/// The numbers of a shape but that of its stages.
#[derive(Clone, Copy)]
pub(crate) struct Sizes {
    pub(crate) machines: u32,
    pub(crate) workers: u32,
    pub(crate) credits: u32,
    pub(crate) broad: u32,
    pub(crate) buffer: u32,
}

/// How the vertices are dealt out.
#[derive(Clone, Copy)]
pub(crate) enum PartSaid<'a> {
    Modulo,
    Block,
    Listed(&'a str),
}

// What a line says after its first word, where that is this word.
fn after_word<'a>(line: &'a [u8], word: &str) -> Option<&'a [u8]>
    ensures { option_map (λ text. text.now) result ≡ after_word word.now line.now }
{
    match cut(line) {
        Some((first, rest)) if first == word.as_bytes() => Some(rest),
        _ => None,
    }
}

fn has_no_control_byte(text: &[u8]) -> bool
    ensures { result ≡ list_all (λ b. nat_le 32 b) text.now }
{
    text.iter().all(|b| 32 <= *b)
}

// The name of a file, where the text may be one.
fn file(text: &[u8]) -> Option<&str>
    ensures { option_map (λ file. file.now) result ≡ file_of text.now }
{
    if text.is_empty() || !has_no_control_byte(text) {
        return None;
    }
    match str::from_utf8(text) {
        Ok(file) => Some(file),
        Err(_) => None,
    }
}

/// The name of a file that stands after this word.
pub(crate) fn name_on<'a>(line: &'a [u8], word: &str) -> Option<&'a str>
    ensures { option_map (λ file. file.now) result ≡ name_on word.now line.now }
{
    file(after_word(line, word)?)
}

// The number before the first space, and what stands after that.
fn first(text: &[u8]) -> Option<(u32, &[u8])>
    ensures { option_map {U = ℕ × List ℕ} (λ parts. (parts.0, parts.1.now)) result ≡ first_of text.now }
{
    let (before, after) = cut(text)?;
    Some((number(before)?, after))
}

fn numbers(text: &[u8]) -> Option<Sizes>
    ensures { result ≡ numbers_of text.now }
{
    let (machines, rest) = first(text)?;
    let (workers, rest) = first(rest)?;
    let (credits, broad, buffer) = triple(rest)?;
    Some(Sizes {
        machines,
        workers,
        credits,
        broad,
        buffer,
    })
}

fn is_between(least: u32, greatest: u32, number: u32) -> bool
    ensures { result ≡ is_between least greatest number }
{
    least <= number && number <= greatest
}

fn are_in_limits(numbers: &Sizes) -> bool
    ensures { result ≡ are_in_limits numbers.now }
{
    is_between(1, 8, numbers.machines)
        && is_between(1, 8, numbers.workers)
        && is_between(1, 8, numbers.credits)
        && is_between(0, 16, numbers.broad)
        && is_between(1, 64, numbers.buffer)
}

/// The numbers of a shape, each within its limits.
pub(crate) fn shape_on(line: &[u8]) -> Option<Sizes>
    ensures said { result ≡ shape_on line.now }
    ensures limits { IfSome result (λ sizes. are_in_limits sizes ≡ true) }
{
    let numbers = numbers(after_word(line, "shape")?)?;
    if are_in_limits(&numbers) {
        Some(numbers)
    } else {
        None
    }
}

// The file that `listed:FILE` names.
fn listed(text: &[u8]) -> Option<PartSaid<'_>>
    ensures { option_map part_seen result ≡ listed_of text.now }
{
    let name = file(text.strip_prefix(b"listed:")?)?;
    Some(PartSaid::Listed(name))
}

fn part(text: &[u8]) -> Option<PartSaid<'_>>
    ensures { option_map part_seen result ≡ part_of text.now }
{
    if text == b"modulo".as_slice() {
        return Some(PartSaid::Modulo);
    }
    if text == b"block".as_slice() {
        return Some(PartSaid::Block);
    }
    listed(text)
}

/// How the vertices are dealt out.
pub(crate) fn part_on(line: &[u8]) -> Option<PartSaid<'_>>
    ensures { option_map part_seen result ≡ part_on line.now }
{
    part(after_word(line, "part")?)
}

/// Nothing, where the line is a trace's first.
pub(crate) fn version_on(line: &[u8]) -> Option<()>
    ensures { result ≡ version_on line.now }
{
    if line == b"adfs-trace 1".as_slice() {
        Some(())
    } else {
        None
    }
}
