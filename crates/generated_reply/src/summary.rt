//! The rows of an answer in brief.
ghost use Rattle.std.specs.Prelude.{◌≡◌, ◌++◌, ◌∷◌, OnOk, length};
ghost use Rattle.std.specs.Fmt.{decimal};
ghost use Rattle.std.specs.List.{AllByRecursion};
ghost use Rattle.pgql_meaning.specs.Shown.{AreShown};
ghost use Rattle.result_collect.specs.Replies.{row_text};
ghost use Rattle.value_text.specs.Valid.{IsValid};
ghost use Rattle.generated_reply.specs.Summary.{ends_text, made_text, rows_text};

use adfs_base::NoMemory;
use answer_rows::Row;
use result_collect::put_row;
use std::alloc::Global;
use value_text::Texts;

fn put_number(number: u64, out: &mut Vec<u8>) -> Result<(), NoMemory>
    ensures { OnOk result (out.new.items ≡ out.old.items ++ decimal number) }
{
    let mut digits = itoa::Buffer::new();
    out.extend_from_slice(digits.format(number).as_bytes())?;
    Ok(())
}

/// Writes how many vertices and edges were made.
pub fn put_made(vertices: u64, edges: u64, out: &mut Vec<u8>) -> Result<(), NoMemory>
    ensures { OnOk result (out.new.items ≡ out.old.items ++ made_text vertices edges) }
{
    out.extend_from_slice(b"generated ")?;
    put_number(vertices, out)?;
    out.extend_from_slice(b" vertices ")?;
    put_number(edges, out)?;
    out.extend_from_slice(b" edges\n")?;
    Ok(())
}

// Writes a word and the line of a row.
fn put_named_row(
    alloc: Global,
    word: &[u8],
    row: &Row,
    texts: &Texts,
    out: &mut Vec<u8>,
) -> Result<(), NoMemory>
    requires { AllByRecursion (IsValid texts.now) row.now }
    ensures { OnOk result (out.new.items ≡ out.old.items ++ (word.now ++ row_text texts.now row.now)) }
{
    out.extend_from_slice(word)?;
    put_row(alloc, row, texts, out)
}

// Writes the first and the last row, where there are rows.
fn put_ends(alloc: Global, rows: &[Row], texts: &Texts, out: &mut Vec<u8>) -> Result<(), NoMemory>
    requires { AreShown texts.now rows.now }
    ensures { OnOk result (out.new.items ≡ out.old.items ++ ends_text texts.now rows.now) }
{
    if rows.is_empty() {
        return Ok(());
    }
    put_named_row(alloc, b"first ", &rows[0], texts, out)?;
    put_named_row(alloc, b"last ", &rows[rows.len() - 1], texts, out)
}

/// Writes how many rows there are, and the first and the last.
pub fn put_rows(
    alloc: Global,
    rows: &[Row],
    texts: &Texts,
    out: &mut Vec<u8>,
) -> Result<(), NoMemory>
    requires { AreShown texts.now rows.now }
    ensures { OnOk result (out.new.items ≡ out.old.items ++ rows_text texts.now rows.now) }
{
    out.extend_from_slice(b"rows ")?;
    put_number(rows.len() as u64, out)?;
    out.push(b'\n')?;
    put_ends(alloc, rows, texts, out)
}
