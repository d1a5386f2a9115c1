//! The values of literals.

ghost use Rattle.std.specs.Prelude.{◌≡◌, ◌<◌, ◌^◌, ◌++◌, ◌∷◌, length, slice_index, IfOk, false};
ghost use Rattle.pgql_lexer.specs.Fronts.{value_after};
ghost use Rattle.pgql_lexemes.specs.Lexemes.{undoubled};

use memchr::memchr;
use sqlite_items::Items;
use std::alloc::{AllocError, Global};

/// The value of digits.
pub fn value_of_digits(digits: &[u8]) -> u64
    requires { value_after 0 digits.now < 2 ^ 63 }
    ensures { result ≡ value_after 0 digits.now }
{
    let mut value: u64 = 0;
    let mut rest = digits;
    while let [digit, more @ ..] = rest {
        value = 10 * value + u64::from(digit.saturating_sub(b'0'));
        rest = more;
    }
    value
}

/// What stands after the quote at the front, and after the one that doubles it.
fn past_quote(quoted: &[u8]) -> &[u8]
    requires { slice_index quoted.now 0 ≡ 39 }
    ensures content { undoubled false quoted.now ≡ 39 ∷ undoubled false result.now }
    ensures shorter { length result.now < length quoted.now }
{
    match quoted {
        [_, b'\'', more @ ..] => more,
        [_, more @ ..] => more,
        [] => unreachable!(),
    }
}

/// The content of a literal, with each doubled quote as one.
pub fn undoubled(alloc: Global, content: &[u8]) -> Result<Items<u8>, AllocError>
    ensures { IfOk result (λ found. found ≡ undoubled false content.now) }
{
    let mut found = Vec::new(alloc);
    let mut rest = content;
    while let Some(plain) = memchr(b'\'', rest) {
        found.extend_from_slice(&rest[..plain])?;
        found.push(b'\'')?;
        rest = past_quote(&rest[plain..]);
    }
    found.extend_from_slice(rest)?;
    Ok(Items::from_vec(found))
}
