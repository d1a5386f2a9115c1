//! What stands before a record.
ghost use Rattle.std.specs.Prelude.{◌≡◌, ◌≤◌, drop, length, position};
ghost use Rattle.std.specs.List.{position_or_len};
ghost use Rattle.csv.specs.Reading.{strip_bom};
ghost use Rattle.csv_records.specs.Fields as fields;

use crate::fields::from_place;

fn begins_record(byte: u8) -> bool
    ensures { result ≡ fields.begins_record byte }
{
    byte != b'\r' && byte != b'\n'
}

fn record_at(text: &[u8]) -> Option<usize>
    ensures { result ≡ position fields.begins_record text.now }
{
    text.iter().position(|b| begins_record(*b))
}

// Where the first record of a text begins.
fn record_start(text: &[u8]) -> usize
    ensures value { result ≡ position_or_len fields.begins_record text.now }
    ensures within { result ≤ length text.now }
{
    match record_at(text) {
        Some(n) => n,
        None => text.len(),
    }
}

/// The text from its first record on.
pub(crate) fn past_line_ends(text: &[u8]) -> &[u8]
    ensures { result.now ≡ drop (position_or_len fields.begins_record text.now) text.now }
{
    from_place(text, record_start(text))
}

fn has_mark(text: &[u8]) -> bool
    ensures { result ≡ fields.has_mark text.now }
{
    text.len() >= 3 && text[0] == 0xEF && text[1] == 0xBB && text[2] == 0xBF
}

/// The text without a byte order mark at its front.
pub(crate) fn without_mark(text: &[u8]) -> &[u8]
    ensures { result.now ≡ strip_bom text.now }
{
    if has_mark(text) {
        from_place(text, 3)
    } else {
        text
    }
}
