//! The fields of a record.
ghost use Rattle.std.specs.Prelude.{◌≡◌, ◌<◌, ◌≤◌, ◌++◌, ℕ, List, [], true, drop, length, IfOk, Some, position};
ghost use Rattle.std.specs.List.{position_or_len};
ghost use Rattle.csv.specs.declared.parser.State.TheVariants as st;
ghost use Rattle.csv_records.specs.Fields as fields;
ghost use Rattle.csv_records.specs.Fields.{is_quote, record_after, record_from, record_within};

use crate::row::Row;
use std::alloc::AllocError;

fn ends_field(byte: u8) -> bool
    ensures { result ≡ fields.ends_field byte }
{
    byte == b',' || byte == b'\r' || byte == b'\n'
}

fn end_at(text: &[u8]) -> Option<usize>
    ensures { result ≡ position fields.ends_field text.now }
{
    text.iter().position(|b| ends_field(*b))
}

// Where the field at the front of a text ends, if it isn't quoted.
fn field_end(text: &[u8]) -> usize
    ensures value { result ≡ position_or_len fields.ends_field text.now }
    ensures within { result ≤ length text.now }
{
    match end_at(text) {
        Some(n) => n,
        None => text.len(),
    }
}

fn quote_at(text: &[u8]) -> Option<usize>
    ensures { result ≡ position is_quote text.now }
{
    text.iter().position(|b| *b == b'"')
}

// Where the quotes end or are doubled.
fn run_end(text: &[u8]) -> usize
    ensures value { result ≡ position_or_len is_quote text.now }
    ensures within { result ≤ length text.now }
{
    match quote_at(text) {
        Some(n) => n,
        None => text.len(),
    }
}

// The text after its first byte.
fn after_first(text: &[u8]) -> &[u8]
    ensures rest { result.now ≡ drop 1 text.now }
{
    match text.split_first() {
        Some((_, rest)) => rest,
        None => text,
    }
}

/// The text from a place on.
pub(crate) fn from_place(text: &[u8], place: usize) -> &[u8]
    requires { place ≤ length text.now }
    ensures { result.now ≡ drop place text.now }
{
    &text[place..]
}

// Whether the text begins with a quote.
fn is_quoted(text: &[u8]) -> bool
    ensures { result ≡ fields.is_quoted text.now }
{
    match text.first() {
        Some(first) => *first == b'"',
        None => false,
    }
}

// Whether the end of a field, with which the text begins, has another field of the record after it.
fn goes_on(text: &[u8]) -> bool
    ensures value { result ≡ fields.goes_on text.now }
    ensures there { result ≡ true → 0 < length text.now }
{
    match text.first() {
        Some(first) => *first == b',',
        None => false,
    }
}

// Whether a field that was quoted is over.
fn is_over(text: &[u8]) -> bool
    ensures { result ≡ fields.is_over text.now }
{
    match text.first() {
        Some(first) => ends_field(*first),
        None => true,
    }
}

// Adds a field that isn't quoted. The answer says whether another field of the record follows, and what stands after it.
fn take_plain<'a>(text: &'a [u8], row: &mut Row<'a>) -> Result<(bool, &'a [u8]), AllocError>
    ensures taken { IfOk result (λ r. record_from st.InField row.old [] text.now ≡ record_after r.0 row.new r.1.now) }
    ensures shorter { IfOk result (λ r. r.0 ≡ true → length r.1.now < length text.now) }
{
    let end = field_end(text);
    row.push(&text[..end])?;
    let tail = from_place(text, end);
    Ok((goes_on(tail), after_first(tail)))
}

// Adds the bytes up to a quote to a field. The answer says whether the field goes on inside the quotes, as it does
// where the quote is doubled, and what follows.
fn take_run<'a>(text: &'a [u8], field: &mut Vec<u8>) -> Result<(bool, &'a [u8]), AllocError>
    ensures taken { IfOk result (λ r. (before : List (List ℕ)) → record_from st.InQuoted before field.old.items text.now ≡ record_within r.0 before field.new.items r.1.now) }
    ensures shorter { IfOk result (λ r. (length r.1.now ≤ length text.now) × (r.0 ≡ true → length r.1.now < length text.now)) }
{
    let end = run_end(text);
    field.extend_from_slice(&text[..end])?;
    let tail = from_place(text, end);
    let rest = after_first(tail);
    if is_quoted(rest) {
        field.push(b'"')?;
        return Ok((true, after_first(rest)));
    }
    Ok((false, rest))
}

// Adds what is quoted to a field, where the text begins after the opening quote. Answers what follows the closing one.
fn unquote<'a>(text: &'a [u8], field: &mut Vec<u8>) -> Result<&'a [u8], AllocError>
    ensures taken { IfOk result (λ rest. (before : List (List ℕ)) → record_from st.InQuoted before field.old.items text.now ≡ record_from st.InField before field.new.items rest.now) }
    ensures shorter { IfOk result (λ rest. length rest.now ≤ length text.now) }
{
    let mut rest = text;
    let mut inside = true;
    'runs: while inside {
        let (again, after) = take_run(rest, field)?;
        inside = again;
        rest = after;
    }
    Ok(rest)
}

// Adds a quoted field whose bytes don't stand side by side, where the text begins after the opening quote. `field` is
// where they are put together.
fn take_joined<'a>(
    text: &'a [u8],
    row: &mut Row<'a>,
    field: &mut Vec<u8>,
) -> Result<(bool, &'a [u8]), AllocError>
    ensures taken { IfOk result (λ r. record_from st.InQuoted row.old [] text.now ≡ record_after r.0 row.new r.1.now) }
    ensures shorter { IfOk result (λ r. length r.1.now ≤ length text.now) }
{
    field.clear();
    let rest = unquote(text, field)?;
    let end = field_end(rest);
    field.extend_from_slice(&rest[..end])?;
    row.push_copy(field)?;
    let tail = from_place(rest, end);
    Ok((goes_on(tail), after_first(tail)))
}

// Adds a field that is quoted, where the text begins after the opening quote. If it ends at the first quote from there
// on, its bytes stand side by side.
fn take_quoted<'a>(
    text: &'a [u8],
    row: &mut Row<'a>,
    field: &mut Vec<u8>,
) -> Result<(bool, &'a [u8]), AllocError>
    ensures taken { IfOk result (λ r. record_from st.InQuoted row.old [] text.now ≡ record_after r.0 row.new r.1.now) }
    ensures shorter { IfOk result (λ r. length r.1.now ≤ length text.now) }
{
    let end = run_end(text);
    let tail = after_first(from_place(text, end));
    if is_over(tail) {
        row.push(&text[..end])?;
        return Ok((goes_on(tail), after_first(tail)));
    }
    take_joined(text, row, field)
}

// Adds the field at the front of a text.
fn take_field<'a>(
    text: &'a [u8],
    row: &mut Row<'a>,
    field: &mut Vec<u8>,
) -> Result<(bool, &'a [u8]), AllocError>
    ensures taken { IfOk result (λ r. record_from st.StartField row.old [] text.now ≡ record_after r.0 row.new r.1.now) }
    ensures shorter { IfOk result (λ r. r.0 ≡ true → length r.1.now < length text.now) }
{
    if is_quoted(text) {
        take_quoted(after_first(text), row, field)
    } else {
        take_plain(text, row)
    }
}

/// Adds the fields of the record at the front of a text, and answers the text after it. `field` is where one is put
/// together whose bytes don't stand side by side.
pub(crate) fn take_fields<'a>(
    text: &'a [u8],
    row: &mut Row<'a>,
    field: &mut Vec<u8>,
) -> Result<&'a [u8], AllocError>
    ensures taken { IfOk result (λ rest. record_from st.StartField row.old [] text.now ≡ Some (row.new, rest.now)) }
{
    let mut rest = text;
    let mut more = true;
    'fields: while more {
        let (another, after) = take_field(rest, row, field)?;
        more = another;
        rest = after;
    }
    Ok(rest)
}
