//! Where the queries of a file stand.
ghost use Rattle.std.specs.Prelude.{◌≡◌, ◌≢◌, ℕ, ◌<◌, ◌≤◌, ◌+◌, ◌-◌, ◌^◌, ◌++◌, drop, length, All, IfOk, OnOk};
ghost use Rattle.pgql_lexer.specs.Fronts as front;
ghost use Rattle.pgql_lexer.specs.Pieces.{comment_marked, kept, marked_front, pieces};
ghost use Rattle.pgql_lexer.specs.Parts.{ended_by, part_after};
ghost use Rattle.pgql_lexer.specs.Places.{LiesBetween, StandBetween};

use crate::fronts::{byte_at, comment_end, is_space, literal_end};
use adfs_base::{FILE_BYTES, NoMemory};
use std::alloc::Global;

/// What a byte is to the piece that it stands in.
#[derive(Clone, Copy, Debug, PartialEq, Eq)]
pub enum Mark {
    /// Whitespace, or of a closed comment.
    Blank,
    /// Of a query.
    Matter,
    /// The semicolon that ends a piece.
    End,
}

fn comment(text: &[u8]) -> (Mark, usize)
    requires some { 1 < length text.now }
    requires short { length text.now < 2 ^ 32 }
    ensures value { result ≡ comment_marked text.now (front.comment_end 2 (drop 2 text.now)) }
    ensures within { (1 ≤ result.1) × (result.1 ≤ length text.now) }
    ensures mark { result.0 ≢ Mark.End }
{
    match comment_end(&text[2..]) {
        None => (Mark::Matter, text.len()),
        Some(end) => (Mark::Blank, end),
    }
}

// What stands at the front of the text: its mark, and how many bytes have it.
#[tactic(auto, unfolding(crate::specs::Pieces::marked_front))]
fn read_mark(text: &[u8]) -> (Mark, usize)
    requires some { 0 < length text.now }
    requires short { length text.now < 2 ^ 32 }
    ensures value { result ≡ marked_front text.now }
    ensures within { (1 ≤ result.1) × (result.1 ≤ length text.now) }
    ensures end { result.0 ≡ Mark.End → result.1 ≡ 1 }
{
    let byte = byte_at(text, 0);
    if byte == b';' {
        (Mark::End, 1)
    } else if is_space(byte) {
        (Mark::Blank, 1)
    } else if byte == b'\'' {
        (Mark::Matter, literal_end(&text[1..]).unwrap_or(text.len()))
    } else if byte == b'/' && byte_at(text, 1) == b'*' {
        comment(text)
    } else {
        (Mark::Matter, 1)
    }
}

/// The part of a file that is being read: where it starts and goes on, and whether it holds a query so far.
#[derive(Clone, Copy)]
struct Part {
    start: u32,
    end: u32,
    is_query: bool,
}

// Adds the part, if it is a query.
fn keep(found: &mut Vec<(u32, u32)>, part: Part) -> Result<(), NoMemory>
    ensures ok { OnOk result (found.new.items ≡ found.old.items ++ kept part.start part.end part.is_query) }
{
    if part.is_query {
        found.push((part.start, part.end))?;
    }
    Ok(())
}

// Reads on by so many bytes of this mark, and adds the part where they end it.
fn read_on(
    found: &mut Vec<(u32, u32)>,
    part: Part,
    mark: Mark,
    count: usize,
) -> Result<Part, NoMemory>
    requires short { part.end + count < 2 ^ 32 }
    ensures part { IfOk result (λ next. next ≡ part_after mark count part) }
    ensures found { IfOk result (λ _. found.new.items ≡ found.old.items ++ ended_by mark part) }
{
    let end = part.end + count as u32;
    match mark {
        Mark::Blank => Ok(Part { end, ..part }),
        Mark::Matter => Ok(Part {
            end,
            is_query: true,
            ..part
        }),
        Mark::End => {
            keep(found, part)?;
            Ok(Part {
                start: end,
                end,
                is_query: false,
            })
        }
    }
}

/// The pieces of a query file, one for each query: the first byte of each, and the place after its last.
///
/// The file is cut at each `;` that stands outside text literals and comments, and the `;` belongs to no
/// piece. The last piece may lack it. A text literal or a comment that isn't closed goes on to the file's
/// end. What holds whitespace and closed comments alone is no query and is left out. The pieces stand in the
/// order of the file, and none is empty.
///
/// # Errors
///
/// `NoMemory` alone.
pub fn cut(alloc: Global, text: &[u8]) -> Result<Vec<(u32, u32)>, NoMemory>
    requires short { length text.now ≤ FILE_BYTES }
    ensures exact { IfOk result (λ found. found.items ≡ pieces text.now) }
    ensures order { IfOk result (λ found. StandBetween 0 (length text.now) found.items) }
    ensures within { IfOk result (λ found. All (LiesBetween 0 (length text.now)) found.items) }
{
    let mut found = Vec::new(alloc);
    let mut rest = text;
    let mut part = Part {
        start: 0,
        end: 0,
        is_query: false,
    };
    while !rest.is_empty() {
        let (mark, count) = read_mark(rest);
        part = read_on(&mut found, part, mark, count)?;
        rest = &rest[count..];
    }
    keep(&mut found, part)?;
    Ok(found)
}
