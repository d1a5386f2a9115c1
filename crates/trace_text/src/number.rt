//! The numbers of a line.
ghost use Rattle.std.specs.Prelude.{◌≡◌, ◌++◌, ◌∷◌, OnOk};
ghost use Rattle.std.specs.Fmt.{decimal};
ghost use Rattle.trace_text.specs.Numbers.{is_plain, number_of, pair_of, triple_of};

use adfs_base::NoMemory;
use std::str;
use text_lines::{all_digits, cut};

// Whether the text is decimal digits without a leading zero.
fn is_plain(text: &[u8]) -> bool
    ensures { result ≡ is_plain text.now }
{
    match text.split_first() {
        Some((digit, rest)) => all_digits(text) && (*digit != b'0' || rest.is_empty()),
        None => false,
    }
}

/// The number that the text is.
pub(crate) fn number(text: &[u8]) -> Option<u32>
    ensures { result ≡ number_of text.now }
{
    if !is_plain(text) {
        return None;
    }
    match str::from_utf8(text) {
        Ok(digits) => digits.parse::<u32>().ok(),
        Err(_) => None,
    }
}

/// The two numbers that the text is, with a space between them.
pub(crate) fn pair(text: &[u8]) -> Option<(u32, u32)>
    ensures { result ≡ pair_of text.now }
{
    let (first, second) = cut(text)?;
    let first = number(first)?;
    let second = number(second)?;
    Some((first, second))
}

/// The three numbers that the text is, with a space between each two.
pub(crate) fn triple(text: &[u8]) -> Option<(u32, u32, u32)>
    ensures { result ≡ triple_of text.now }
{
    let (first, rest) = cut(text)?;
    let (second, third) = pair(rest)?;
    let first = number(first)?;
    Some((first, second, third))
}

/// Writes a space and the number.
pub(crate) fn put_next(number: u32, out: &mut Vec<u8>) -> Result<(), NoMemory>
    ensures { OnOk result (out.new.items ≡ out.old.items ++ 32 ∷ decimal number) }
{
    let mut digits = itoa::Buffer::new();
    out.push(b' ')?;
    out.extend_from_slice(digits.format(number).as_bytes())?;
    Ok(())
}
