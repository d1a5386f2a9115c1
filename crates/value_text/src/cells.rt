//! What cells say.
ghost use Rattle.std.specs.Prelude.{◌≡◌, ◌≤◌, ◌+◌, ◌<◌, ◌-◌, ◌^◌, ℕ, List, IfOk, IfSome, Ok, OnErr, length};
ghost use Rattle.std.specs.Char.{is_ascii_digit};
ghost use Rattle.std.specs.List.{list_all};
ghost use Rattle.std.specs.Result.{result_ok};
ghost use Rattle.std.specs.Str.{is_utf8};
ghost use Rattle.std.specs.Str.Parse.{without_leading_sign};
ghost use Rattle.value_text.specs.Cells.{Gives, as_bool, as_date, as_int, as_text, bool_cell, cell_value};
ghost use Rattle.value_text.specs.Dates.{date_cell};
ghost use Rattle.value_text.specs.Numbers.{int_cell, is_numeral};
ghost use Rattle.value_text.specs.Texts.{Kept};
ghost use Rattle.value_text.specs.Valid.{IsValid};

use crate::dates::read_date;
use crate::texts::Texts;
use adfs_base::{Kind, Value};
use std::str;

/// Why a cell isn't accepted.
#[derive(Clone, Copy, Debug, PartialEq, Eq)]
pub enum CellFault {
    /// It isn't a sign or none and then decimal digits, at least one.
    BadInt,
    /// It has that form, and the number is outside i64.
    WideInt,
    /// It is neither `true` nor `false`, whatever the case of the letters.
    BadBool,
    /// It isn't ten bytes `DDDD-DD-DD` that name a civil date.
    BadDate,
    /// It isn't UTF-8.
    BadText,
    /// Its record has another number of cells than the header. No call of this crate gives it.
    WrongCount,
    /// Memory ran out.
    NoMemory,
}

// What stands after a sign, if there is one.
fn unsigned_part(cell: &[u8]) -> &[u8]
    ensures { result.now ≡ without_leading_sign cell.now }
{
    match cell.first() {
        Some(b'+' | b'-') => &cell[1..],
        _ => cell,
    }
}

fn all_digits(digits: &[u8]) -> bool
    ensures { result ≡ list_all is_ascii_digit digits.now }
{
    digits.iter().all(|b| b.is_ascii_digit())
}

// Whether the bytes are one decimal digit or more.
fn has_digits(digits: &[u8]) -> bool
    ensures { result ≡ is_numeral digits.now }
{
    !digits.is_empty() && all_digits(digits)
}

/// How many digits a number has at most that surely fits.
const MOST_DIGITS: usize = 18;

// The number of a cell of so many decimal digits at most, and nothing else. Nearly every cell of numbers is one.
fn plain(cell: &[u8]) -> Option<i64>
    ensures { IfSome result (λ number. Ok number ≡ int_cell cell.now) }
{
    if cell.len() > MOST_DIGITS {
        return None;
    }
    let mut number: u64 = 0;
    for byte in cell {
        if !byte.is_ascii_digit() {
            return None;
        }
        number = number * 10 + u64::from(*byte - b'0');
    }
    if !cell.is_empty() {
        Some(number as i64)
    } else {
        None
    }
}

// The number of a cell, where it holds one that i64 has.
fn number(cell: &[u8]) -> Option<i64>
    ensures { result ≡ result_ok (int_cell cell.now) }
{
    match str::from_utf8(cell) {
        Ok(text) => text.parse::<i64>().ok(),
        Err(_) => None,
    }
}

/// The number of a cell that has to hold one, as those of `id`, `source` and `target` do: the empty cell
/// is `BadInt`.
///
/// The form is an optional `+` or `-`, then one decimal digit or more. `BadInt` comes exactly where the form is
/// wrong, and `WideInt` exactly where it is right and the number is outside i64. It takes no memory.
pub fn read_key(cell: &[u8]) -> Result<i64, CellFault>
    ensures { result ≡ int_cell cell.now }
{
    if let Some(number) = plain(cell) {
        return Ok(number);
    }
    if let Some(number) = number(cell) {
        return Ok(number);
    }
    // Why it holds none is looked for only now: nearly every cell holds one.
    if has_digits(unsigned_part(cell)) {
        Err(CellFault::WideInt)
    } else {
        Err(CellFault::BadInt)
    }
}

// A truth value.
fn read_bool(cell: &[u8]) -> Result<bool, CellFault>
    ensures { result ≡ bool_cell cell.now }
{
    if cell.eq_ignore_ascii_case(b"true") {
        return Ok(true);
    }
    if cell.eq_ignore_ascii_case(b"false") {
        return Ok(false);
    }
    Err(CellFault::BadBool)
}

// The value of a cell of whole numbers.
fn int_value(cell: &[u8]) -> Result<Value, CellFault>
    ensures value { (texts : List (List ℕ)) → Gives result texts (as_int texts (int_cell cell.now)) }
    ensures valid { (texts : List (List ℕ)) → IfOk result (IsValid texts) }
{
    match read_key(cell) {
        Ok(number) => Ok(Value::Int(number)),
        Err(fault) => Err(fault),
    }
}

// The value of a cell of truth values.
fn bool_value(cell: &[u8]) -> Result<Value, CellFault>
    ensures value { (texts : List (List ℕ)) → Gives result texts (as_bool texts (bool_cell cell.now)) }
    ensures valid { (texts : List (List ℕ)) → IfOk result (IsValid texts) }
{
    match read_bool(cell) {
        Ok(truth) => Ok(Value::Bool(truth)),
        Err(fault) => Err(fault),
    }
}

// The value of a cell of dates.
fn date_value(cell: &[u8]) -> Result<Value, CellFault>
    ensures value { (texts : List (List ℕ)) → Gives result texts (as_date texts (date_cell cell.now)) }
    ensures valid { (texts : List (List ℕ)) → IfOk result (IsValid texts) }
{
    match read_date(cell) {
        Some(day) => Ok(Value::Date(day)),
        None => Err(CellFault::BadDate),
    }
}

// Whether the bytes are UTF-8.
fn is_text(bytes: &[u8]) -> bool
    ensures { result ≡ is_utf8 bytes.now }
{
    match str::from_utf8(bytes) {
        Ok(_) => true,
        Err(_) => false,
    }
}

// The value of a cell of texts, which becomes one of `texts`.
fn text_value(cell: &[u8], texts: &mut Texts) -> Result<Value, CellFault>
    requires { length texts.old < 2 ^ 32 - 1 }
    ensures value { Gives result texts.new (as_text texts.old cell.now) }
    ensures valid { IfOk result (IsValid texts.new) }
    ensures err { OnErr result (texts.new ≡ texts.old) }
    ensures kept { Kept texts.old texts.new }
    ensures room { length texts.new ≤ length texts.old + 1 }
{
    if !is_text(cell) {
        return Err(CellFault::BadText);
    }
    match texts.add(cell) {
        Ok(number) => Ok(Value::Text(number)),
        Err(_) => Err(CellFault::NoMemory),
    }
}

/// What a cell of a kind says. The empty cell is null for any kind, and a text becomes one of `texts`.
///
/// Each fault comes exactly where `CellFault` says, for a cell of that kind that isn't empty. After any
/// fault, `NoMemory` among them, the texts are as before. Only a text that is new takes memory.
pub fn read_value(kind: Kind, cell: &[u8], texts: &mut Texts) -> Result<Value, CellFault>
    requires { length texts.old < 2 ^ 32 - 1 }
    ensures value { Gives result texts.new (cell_value kind cell.now texts.old) }
    ensures valid { IfOk result (λ value. IsValid texts.new value) }
    ensures err { OnErr result (texts.new ≡ texts.old) }
    ensures kept { Kept texts.old texts.new }
    ensures room { length texts.new ≤ length texts.old + 1 }
{
    if cell.is_empty() {
        return Ok(Value::Null);
    }
    match kind {
        Kind::Int => int_value(cell),
        Kind::Bool => bool_value(cell),
        Kind::Date => date_value(cell),
        Kind::Text => text_value(cell, texts),
    }
}
