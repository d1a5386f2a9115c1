//! The text of a reply.
ghost use Rattle.std.specs.Prelude.{◌≡◌, ◌++◌, ◌∷◌, [], OnOk, OnErr, length, map};
ghost use Rattle.std.specs.Fmt.{decimal};
ghost use Rattle.std.specs.List.{AllByRecursion, flat_map};
ghost use Rattle.value_text.specs.Shown.{shown, shown_text};
ghost use Rattle.value_text.specs.Valid.{IsValid};
ghost use Rattle.result_collect.specs.Replies.{Grows, head_text, names_text, parted, reply_text, row_text};
ghost use Rattle.pgql_meaning.specs.Shown.{AreShown};

use adfs_base::{Name, NoMemory, Value};
use answer_rows::Row;
use std::alloc::Global;
use typed_query::{Expr, Query};
use value_text::{Texts, put_text, put_value};

#[tactic(auto, using(crate::proofs::Growing::grows_on, crate::proofs::Growing::grows_same))]
fn append_value(value: &Value, texts: &Texts, out: &mut Vec<u8>) -> Result<(), NoMemory>
    requires { IsValid texts.now value.now }
    ensures ok { OnOk result (out.new.items ≡ out.old.items ++ shown texts.now value.now) }
    ensures err { OnErr result (Grows out.old.items out.new.items) }
{
    put_value(value, texts, out)
}

// A value after another.
#[tactic(auto, using(crate::proofs::Growing::grows_on, crate::proofs::Growing::grows_same))]
fn append_next_value(value: &Value, texts: &Texts, out: &mut Vec<u8>) -> Result<(), NoMemory>
    requires { IsValid texts.now value.now }
    ensures ok { OnOk result (out.new.items ≡ out.old.items ++ 44 ∷ shown texts.now value.now) }
    ensures err { OnErr result (Grows out.old.items out.new.items) }
{
    out.push(b',')?;
    append_value(value, texts, out)
}

#[tactic(auto, using(crate::proofs::Growing::grows_on, crate::proofs::Growing::grows_same))]
fn append_other_values(values: &[Value], texts: &Texts, out: &mut Vec<u8>) -> Result<(), NoMemory>
    requires { AllByRecursion (IsValid texts.now) values.now }
    ensures ok { OnOk result (out.new.items ≡ out.old.items ++ flat_map (λ v. 44 ∷ shown texts.now v) values.now) }
    ensures err { OnErr result (Grows out.old.items out.new.items) }
{
    for value in values {
        append_next_value(value, texts, out)?;
    }
    Ok(())
}

#[tactic(auto, using(crate::proofs::Growing::grows_on, crate::proofs::Growing::grows_same))]
fn append_values(values: &[Value], texts: &Texts, out: &mut Vec<u8>) -> Result<(), NoMemory>
    requires { AllByRecursion (IsValid texts.now) values.now }
    ensures ok { OnOk result (out.new.items ≡ out.old.items ++ parted (map (shown texts.now) values.now)) }
    ensures err { OnErr result (Grows out.old.items out.new.items) }
{
    match values.split_first() {
        None => Ok(()),
        Some((first, others)) => {
            append_value(first, texts, out)?;
            append_other_values(others, texts, out)
        }
    }
}

#[tactic(auto, using(crate::proofs::Growing::grows_on, crate::proofs::Growing::grows_same))]
fn append_row(row: &Row, texts: &Texts, out: &mut Vec<u8>) -> Result<(), NoMemory>
    requires { AllByRecursion (IsValid texts.now) row.now }
    ensures ok { OnOk result (out.new.items ≡ out.old.items ++ row_text texts.now row.now) }
    ensures err { OnErr result (Grows out.old.items out.new.items) }
{
    append_values(row.values(), texts, out)?;
    out.push(b'\n')?;
    Ok(())
}

#[tactic(auto, using(crate::proofs::Growing::grows_on, crate::proofs::Growing::grows_same))]
fn append_rows(rows: &[Row], texts: &Texts, out: &mut Vec<u8>) -> Result<(), NoMemory>
    requires { AreShown texts.now rows.now }
    ensures ok { OnOk result (out.new.items ≡ out.old.items ++ flat_map (row_text texts.now) rows.now) }
    ensures err { OnErr result (Grows out.old.items out.new.items) }
{
    for row in rows {
        append_row(row, texts, out)?;
    }
    Ok(())
}

#[tactic(auto, using(crate::proofs::Growing::grows_on, crate::proofs::Growing::grows_same))]
fn append_name(name: &Name, out: &mut Vec<u8>) -> Result<(), NoMemory>
    ensures ok { OnOk result (out.new.items ≡ out.old.items ++ shown_text name.now) }
    ensures err { OnErr result (Grows out.old.items out.new.items) }
{
    put_text(name.text().as_bytes(), out)
}

// A name after another.
#[tactic(auto, using(crate::proofs::Growing::grows_on, crate::proofs::Growing::grows_same))]
fn append_next_name(name: &Name, out: &mut Vec<u8>) -> Result<(), NoMemory>
    ensures ok { OnOk result (out.new.items ≡ out.old.items ++ 44 ∷ shown_text name.now) }
    ensures err { OnErr result (Grows out.old.items out.new.items) }
{
    out.push(b',')?;
    append_name(name, out)
}

#[tactic(auto, using(crate::proofs::Growing::grows_on, crate::proofs::Growing::grows_same))]
fn append_other_names(columns: &[(Expr, Name)], out: &mut Vec<u8>) -> Result<(), NoMemory>
    ensures ok { OnOk result (out.new.items ≡ out.old.items ++ flat_map (λ column. 44 ∷ shown_text column.1) columns.now) }
    ensures err { OnErr result (Grows out.old.items out.new.items) }
{
    for column in columns {
        append_next_name(&column.1, out)?;
    }
    Ok(())
}

#[tactic(auto, using(crate::proofs::Growing::grows_on, crate::proofs::Growing::grows_same))]
fn append_names(columns: &[(Expr, Name)], out: &mut Vec<u8>) -> Result<(), NoMemory>
    ensures ok { OnOk result (out.new.items ≡ out.old.items ++ parted (map (λ column. shown_text column.1) columns.now)) }
    ensures err { OnErr result (Grows out.old.items out.new.items) }
{
    match columns.split_first() {
        None => Ok(()),
        Some((first, others)) => {
            append_name(&first.1, out)?;
            append_other_names(others, out)
        }
    }
}

// The names of the columns, in a line.
#[tactic(auto, using(crate::proofs::Growing::grows_on, crate::proofs::Growing::grows_same))]
fn append_names_line(query: &Query, out: &mut Vec<u8>) -> Result<(), NoMemory>
    ensures ok { OnOk result (out.new.items ≡ out.old.items ++ names_text query.now) }
    ensures err { OnErr result (Grows out.old.items out.new.items) }
{
    append_names(query.select.as_slice(), out)?;
    out.push(b'\n')?;
    Ok(())
}

#[tactic(auto, using(crate::proofs::Growing::grows_on, crate::proofs::Growing::grows_same))]
fn append_number(number: u64, out: &mut Vec<u8>) -> Result<(), NoMemory>
    ensures ok { OnOk result (out.new.items ≡ out.old.items ++ decimal number) }
    ensures err { OnErr result (Grows out.old.items out.new.items) }
{
    let mut digits = itoa::Buffer::new();
    out.extend_from_slice(digits.format(number).as_bytes())?;
    Ok(())
}

// A word and a number after it.
#[tactic(auto, using(crate::proofs::Growing::grows_on, crate::proofs::Growing::grows_same))]
fn append_counted(word: &[u8], number: u64, out: &mut Vec<u8>) -> Result<(), NoMemory>
    ensures ok { OnOk result (out.new.items ≡ out.old.items ++ (word.now ++ decimal number)) }
    ensures err { OnErr result (Grows out.old.items out.new.items) }
{
    out.extend_from_slice(word)?;
    append_number(number, out)
}

#[tactic(auto, using(crate::proofs::Growing::grows_on, crate::proofs::Growing::grows_same))]
fn append_head(number: u32, count: usize, out: &mut Vec<u8>) -> Result<(), NoMemory>
    ensures ok { OnOk result (out.new.items ≡ out.old.items ++ head_text number count) }
    ensures err { OnErr result (Grows out.old.items out.new.items) }
{
    append_counted(b"query ", number as u64, out)?;
    append_counted(b" rows ", count as u64, out)?;
    out.push(b'\n')?;
    Ok(())
}

#[tactic(auto, using(crate::proofs::Growing::grows_on, crate::proofs::Growing::grows_same))]
fn append_reply(
    number: u32,
    query: &Query,
    rows: &[Row],
    texts: &Texts,
    out: &mut Vec<u8>,
) -> Result<(), NoMemory>
    requires { AreShown texts.now rows.now }
    ensures ok { OnOk result (out.new.items ≡ out.old.items ++ reply_text texts.now number query.now rows.now) }
    ensures err { OnErr result (Grows out.old.items out.new.items) }
{
    append_head(number, rows.len(), out)?;
    append_names_line(query, out)?;
    append_rows(rows, texts, out)
}

/// Appends the reply to the query of this number: how many rows there are, the names of the columns, and the
/// rows. After `NoMemory` the bytes are as before.
///
/// It takes memory for `out` alone, which grows by the allocator that it was made with.
pub fn put_reply(
    _alloc: Global,
    number: u32,
    query: &Query,
    rows: &[Row],
    texts: &Texts,
    out: &mut Vec<u8>,
) -> Result<(), NoMemory>
    requires { AreShown texts.now rows.now }
    ensures ok { OnOk result (out.new.items ≡ out.old.items ++ reply_text texts.now number query.now rows.now) }
    ensures err { OnErr result (out.new.items ≡ out.old.items) }
{
    let start = out.len();
    if append_reply(number, query, rows, texts, out).is_err() {
        out.truncate(start);
        return Err(NoMemory);
    }
    Ok(())
}

/// Appends the line of a row: its values, with a comma between two of them. After `NoMemory` the bytes are as before.
///
/// It takes memory for `out` alone, as `put_reply` does.
pub fn put_row(_alloc: Global, row: &Row, texts: &Texts, out: &mut Vec<u8>) -> Result<(), NoMemory>
    requires { AllByRecursion (IsValid texts.now) row.now }
    ensures ok { OnOk result (out.new.items ≡ out.old.items ++ row_text texts.now row.now) }
    ensures err { OnErr result (out.new.items ≡ out.old.items) }
{
    let before = out.len();
    if append_row(row, texts, out).is_err() {
        out.truncate(before);
        return Err(NoMemory);
    }
    Ok(())
}
