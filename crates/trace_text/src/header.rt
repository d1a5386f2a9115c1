//! What a run is on, as the first lines of its trace say it.
ghost use Rattle.std.specs.Prelude.{◌≡◌, ◌*◌, ◌+◌, ◌≤◌, ◌∷◌, [], Err, IfErr, IfOk, MatchOption, None, Ok, Some, drop, length, slice_get, true};
ghost use Rattle.std.specs.Str.Lines.{lines};
ghost use Rattle.trace_text.specs.Faults.{Gives};
ghost use Rattle.trace_text.specs.Headers.{Follows, are_in_limits, header_of, header_with, name_on, numbers_in, part_on, read_at, shape_on, version_on};
ghost use Rattle.trace_text.specs.Said.{part_seen};
ghost use Rattle.trace_text.specs.declared.fault.ReplayFault.TheVariants as fault;

use crate::fault::ReplayFault;
use crate::said::{PartSaid, Sizes, name_on, part_on, shape_on, version_on};
use adfs_base::{Name, NoMemory, PartWord};
use std::alloc::Global;
use text_lines::{Lines, feed_at};

/// What a run is on: the first five lines of its trace.
#[derive(Drop, Debug)]
pub struct Header {
    /// The manifest's file.
    pub manifest: Name,
    /// The file of queries, of which the first is run.
    pub queries: Name,
    /// 1 to 8.
    pub machines: u32,
    /// Of each machine, 1 to 8.
    pub workers: u32,
    /// 1 to 8.
    pub credits: u32,
    /// At most 16.
    pub broad: u32,
    /// 1 to 64.
    pub buffer: u32,
    /// How the vertices are dealt out to the machines.
    pub part: PartWord,
}

fn rest_from(bytes: &[u8], from: usize) -> &[u8]
    requires { from ≤ length bytes.now }
    ensures { result.now ≡ drop from bytes.now }
{
    &bytes[from..]
}

// The line that begins at a place, and where the next one begins.
fn line_at(bytes: &[u8], from: usize) -> Option<(&[u8], usize)>
    requires { from ≤ length bytes.now }
    ensures { MatchOption result (lines (drop from bytes.now) ≡ []) (λ found. (lines (drop from bytes.now) ≡ found.0.now ∷ lines (drop found.1 bytes.now)) × (found.1 ≤ length bytes.now)) }
{
    let rest = rest_from(bytes, from);
    let line = Lines::new(rest).next()?;
    match feed_at(rest) {
        Some(end) => Some((line, from + end + 1)),
        None => Some((line, bytes.len())),
    }
}

// The line at a place, from 0, and where the next one begins.
fn take_line(bytes: &[u8], place: u32, from: usize) -> Result<(&[u8], usize), ReplayFault>
    requires { Follows bytes.now place from }
    ensures line { IfOk result (λ found. slice_get (lines bytes.now) place ≡ Some found.0.now) }
    ensures follows { IfOk result (λ found. Follows bytes.now (place + 1) found.1) }
    ensures none { IfErr result (λ why. (why ≡ fault.NotFinished) × (slice_get (lines bytes.now) place ≡ None)) }
{
    match line_at(bytes, from) {
        Some(found) => Ok(found),
        None => Err(ReplayFault::NotFinished),
    }
}

// The first line, after which the next begins here.
fn version(bytes: &[u8]) -> Result<usize, ReplayFault>
    ensures read { IfOk result (λ next. read_at version_on 0 (lines bytes.now) ≡ Ok tt) }
    ensures follows { IfOk result (λ next. Follows bytes.now 1 next) }
    ensures fault { IfErr result (λ fault. read_at version_on 0 (lines bytes.now) ≡ Err fault) }
{
    let (line, next) = take_line(bytes, 0, 0)?;
    match version_on(line) {
        Some(()) => Ok(next),
        None => Err(ReplayFault::BadLine(1)),
    }
}

// The name of a file on the line at a place, and where the next line begins.
fn name_at<'a>(
    bytes: &'a [u8],
    place: u32,
    from: usize,
    word: &str,
) -> Result<(&'a str, usize), ReplayFault>
    requires few { place ≤ 5 }
    requires follows { Follows bytes.now place from }
    ensures read { IfOk result (λ found. read_at (name_on word.now) place (lines bytes.now) ≡ Ok found.0.now) }
    ensures follows { IfOk result (λ found. Follows bytes.now (place + 1) found.1) }
    ensures fault { IfErr result (λ fault. read_at (name_on word.now) place (lines bytes.now) ≡ Err fault) }
{
    let (line, next) = take_line(bytes, place, from)?;
    match name_on(line, word) {
        Some(name) => Ok((name, next)),
        None => Err(ReplayFault::BadLine(place + 1)),
    }
}

// The numbers of the shape on the fourth line, and where the next line begins.
fn shape_at(bytes: &[u8], from: usize) -> Result<(Sizes, usize), ReplayFault>
    requires { Follows bytes.now 3 from }
    ensures read { IfOk result (λ found. read_at shape_on 3 (lines bytes.now) ≡ Ok found.0) }
    ensures limits { IfOk result (λ found. are_in_limits found.0 ≡ true) }
    ensures follows { IfOk result (λ found. Follows bytes.now 4 found.1) }
    ensures fault { IfErr result (λ fault. read_at shape_on 3 (lines bytes.now) ≡ Err fault) }
{
    let (line, next) = take_line(bytes, 3, from)?;
    match shape_on(line) {
        Some(sizes) => Ok((sizes, next)),
        None => Err(ReplayFault::BadLine(4)),
    }
}

// The part word on the fifth line, and where the next line begins.
fn part_at(bytes: &[u8], from: usize) -> Result<(PartSaid<'_>, usize), ReplayFault>
    requires { Follows bytes.now 4 from }
    ensures read { IfOk result (λ found. read_at part_on 4 (lines bytes.now) ≡ Ok (part_seen found.0)) }
    ensures follows { IfOk result (λ found. Follows bytes.now 5 found.1) }
    ensures fault { IfErr result (λ fault. read_at part_on 4 (lines bytes.now) ≡ Err fault) }
{
    let (line, next) = take_line(bytes, 4, from)?;
    match part_on(line) {
        Some(part) => Ok((part, next)),
        None => Err(ReplayFault::BadLine(5)),
    }
}

// What the first five lines say, where they stand.
#[derive(Clone, Copy)]
struct Said<'a> {
    manifest: &'a str,
    queries: &'a str,
    sizes: Sizes,
    part: PartSaid<'a>,
}

fn said_by(bytes: &[u8]) -> Result<(Said<'_>, usize), ReplayFault>
    ensures said { IfOk result (λ found. header_of (lines bytes.now) ≡ Ok (header_with found.0.manifest.now found.0.queries.now found.0.sizes (part_seen found.0.part))) }
    ensures limits { IfOk result (λ found. are_in_limits found.0.sizes ≡ true) }
    ensures follows { IfOk result (λ found. Follows bytes.now 5 found.1) }
    ensures fault { IfErr result (λ fault. header_of (lines bytes.now) ≡ Err fault) }
{
    let next = version(bytes)?;
    let (manifest, next) = name_at(bytes, 1, next, "manifest")?;
    let (queries, next) = name_at(bytes, 2, next, "queries")?;
    let (sizes, next) = shape_at(bytes, next)?;
    let (part, next) = part_at(bytes, next)?;
    let said = Said {
        manifest,
        queries,
        sizes,
        part,
    };
    Ok((said, next))
}

fn part_of(alloc: Global, said: PartSaid<'_>) -> Result<PartWord, NoMemory>
    ensures { IfOk result (λ part. part ≡ part_seen said.entry) }
{
    match said {
        PartSaid::Modulo => Ok(PartWord::Modulo),
        PartSaid::Block => Ok(PartWord::Block),
        PartSaid::Listed(file) => Ok(PartWord::Listed(Name::new(alloc, file)?)),
    }
}

fn header_from(alloc: Global, said: &Said<'_>) -> Result<Header, NoMemory>
    ensures { IfOk result (λ header. header ≡ header_with said.now.manifest.now said.now.queries.now said.now.sizes (part_seen said.now.part)) }
{
    let manifest = Name::new(alloc, said.manifest)?;
    let queries = Name::new(alloc, said.queries)?;
    let part = part_of(alloc, said.part)?;
    let sizes = said.sizes;
    Ok(Header {
        manifest,
        queries,
        machines: sizes.machines,
        workers: sizes.workers,
        credits: sizes.credits,
        broad: sizes.broad,
        buffer: sizes.buffer,
        part,
    })
}

/// Reads the five lines, and gives the place of the first line after them too.
///
/// `BadLine` has the number of the first line that isn't of the form that its place asks for; a shape with a number
/// outside its limits isn't. `NotFinished` comes where the text ends before. A carriage return before a line feed is
/// dropped.
pub fn read_header(alloc: Global, bytes: &[u8]) -> Result<(Header, u64), ReplayFault>
    ensures exact { Gives (λ found. found.0) result (header_of (lines bytes.now)) }
    ensures limits { IfOk result (λ found. are_in_limits (numbers_in found.0) ≡ true) }
    ensures follows { IfOk result (λ found. Follows bytes.now 5 found.1) }
{
    let (said, next) = said_by(bytes)?;
    let header = header_from(alloc, &said)?;
    Ok((header, next as u64))
}
