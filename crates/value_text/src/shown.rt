//! The texts of values.
ghost use Rattle.std.specs.Prelude.{◌≡◌, ◌++◌, ◌∷◌, [], OnOk, OnErr};
ghost use Rattle.std.specs.List.{flat_map, list_any};
ghost use Rattle.value_text.specs.Shown.{Appends, Grows, doubled, is_special, shown, shown_int, shown_text};
ghost use Rattle.value_text.specs.Valid.{IsValid};

use crate::dates::date_bytes;
use crate::texts::Texts;
use adfs_base::{NoMemory, Value};

// Whether a text has a byte for which it stands in quotes.
fn has_special(text: &[u8]) -> bool
    ensures { result ≡ list_any is_special text.now }
{
    text.iter()
        .any(|b| *b == b',' || *b == b'"' || *b == b'\r' || *b == b'\n')
}

// Appends bytes, or none.
fn append_bytes(bytes: &[u8], out: &mut Vec<u8>) -> Result<(), NoMemory>
    ensures ok { OnOk result (Appends out.old.items out.new.items bytes.now) }
    ensures err { OnErr result (out.new.items ≡ out.old.items) }
{
    out.extend_from_slice(bytes)?;
    Ok(())
}

// Appends a byte of a text, doubled where it is a quote.
fn append_byte(byte: u8, out: &mut Vec<u8>) -> Result<(), NoMemory>
    ensures ok { OnOk result (Appends out.old.items out.new.items (doubled byte)) }
    ensures err { OnErr result (out.new.items ≡ out.old.items) }
{
    if byte == b'"' {
        return append_bytes(b"\"\"", out);
    }
    out.push(byte)?;
    Ok(())
}

// Appends a text with its quotes doubled.
fn append_doubled(text: &[u8], out: &mut Vec<u8>) -> Result<(), NoMemory>
    ensures ok { OnOk result (Appends out.old.items out.new.items (flat_map doubled text.now)) }
    ensures err { OnErr result (Grows out.old.items out.new.items) }
{
    for byte in text {
        append_byte(*byte, out)?;
    }
    Ok(())
}

// Appends a text after a quote.
fn append_opened(text: &[u8], out: &mut Vec<u8>) -> Result<(), NoMemory>
    ensures ok { OnOk result (Appends out.old.items out.new.items (34 ∷ flat_map doubled text.now)) }
    ensures err { OnErr result (Grows out.old.items out.new.items) }
{
    append_bytes(b"\"", out)?;
    append_doubled(text, out)
}

// Appends a text in quotes.
fn append_quoted(text: &[u8], out: &mut Vec<u8>) -> Result<(), NoMemory>
    ensures ok { OnOk result (Appends out.old.items out.new.items (34 ∷ flat_map doubled text.now ++ 34 ∷ [])) }
    ensures err { OnErr result (Grows out.old.items out.new.items) }
{
    append_opened(text, out)?;
    append_bytes(b"\"", out)
}

// Appends a text as a value.
fn append_text(text: &[u8], out: &mut Vec<u8>) -> Result<(), NoMemory>
    ensures ok { OnOk result (Appends out.old.items out.new.items (shown_text text.now)) }
    ensures err { OnErr result (Grows out.old.items out.new.items) }
{
    if text.is_empty() || has_special(text) {
        return append_quoted(text, out);
    }
    out.extend_from_slice(text)?;
    Ok(())
}

// Appends a whole number.
fn append_int(number: i64, out: &mut Vec<u8>) -> Result<(), NoMemory>
    ensures ok { OnOk result (Appends out.old.items out.new.items (shown_int number)) }
    ensures err { OnErr result (Grows out.old.items out.new.items) }
{
    let mut digits = itoa::Buffer::new();
    out.extend_from_slice(digits.format(number).as_bytes())?;
    Ok(())
}

// Appends what a value shows.
fn append_value(value: &Value, texts: &Texts, out: &mut Vec<u8>) -> Result<(), NoMemory>
    requires { IsValid texts.now value.now }
    ensures ok { OnOk result (Appends out.old.items out.new.items (shown texts.now value.now)) }
    ensures err { OnErr result (Grows out.old.items out.new.items) }
{
    match *value {
        Value::Null => Ok(()),
        Value::Int(number) => append_int(number, out),
        Value::Text(number) => append_text(texts.get(number), out),
        Value::Bool(true) => append_bytes(b"true", out),
        Value::Bool(false) => append_bytes(b"false", out),
        Value::Date(day) => append_bytes(&date_bytes(day), out),
    }
}

/// Appends a text as a value is written: in double quotes, with those inside doubled, exactly where it is
/// empty or holds a comma, a double quote, a carriage return or a line feed (as in RFC 4180); else bare.
///
/// After `NoMemory` the bytes are as before.
pub fn put_text(text: &[u8], out: &mut Vec<u8>) -> Result<(), NoMemory>
    ensures ok { OnOk result (out.new.items ≡ out.old.items ++ shown_text text.now) }
    ensures err { OnErr result (out.new.items ≡ out.old.items) }
{
    let start = out.len();
    if append_text(text, out).is_err() {
        out.truncate(start);
        return Err(NoMemory);
    }
    Ok(())
}

/// Appends the text of a value: nothing for null, a whole number in decimal, `true` or `false`, a date as
/// `YYYY-MM-DD`, and a text as `put_text` writes it.
///
/// After `NoMemory` the bytes are as before.
pub fn put_value(value: &Value, texts: &Texts, out: &mut Vec<u8>) -> Result<(), NoMemory>
    requires { IsValid texts.now value.now }
    ensures ok { OnOk result (out.new.items ≡ out.old.items ++ shown texts.now value.now) }
    ensures err { OnErr result (out.new.items ≡ out.old.items) }
{
    let start = out.len();
    if append_value(value, texts, out).is_err() {
        out.truncate(start);
        return Err(NoMemory);
    }
    Ok(())
}
