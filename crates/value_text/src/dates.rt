//! Dates: the civil days of the years 0000 to 9999.
ghost use Rattle.std.specs.Prelude.{◌≡◌, ◌≤◌, ◌<◌, ◌++◌, ◌∷◌, true, IfSome};
ghost use Rattle.std.specs.Char.{is_ascii_digit};
ghost use Rattle.jiff_fmt.specs.Text.{pad2, pad4};
ghost use Rattle.value_text.specs.Dates as dates;
ghost use Rattle.value_text.specs.Dates.{IsDay, date_cell, date_text, day_in, has_date_form, month_in, two, year_in};

use jiff_core::civil::Date;

// The value of two digits.
fn two_digits(tens: u8, ones: u8) -> u8
    requires first { is_ascii_digit tens ≡ true }
    requires second { is_ascii_digit ones ≡ true }
    ensures value { result ≡ two tens ones }
    ensures small { result < 100 }
{
    (tens - 48) * 10 + (ones - 48)
}

// Whether the bytes have the form DDDD-DD-DD.
fn is_dated(text: &[u8]) -> bool
    ensures { result ≡ has_date_form text.now }
{
    text.len() == 10
        && text[0].is_ascii_digit()
        && text[1].is_ascii_digit()
        && text[2].is_ascii_digit()
        && text[3].is_ascii_digit()
        && text[4] == b'-'
        && text[5].is_ascii_digit()
        && text[6].is_ascii_digit()
        && text[7] == b'-'
        && text[8].is_ascii_digit()
        && text[9].is_ascii_digit()
}

fn year_of(text: &[u8]) -> u16
    requires { has_date_form text.now ≡ true }
    ensures value { result ≡ year_in text.now }
    ensures small { result ≤ 9999 }
{
    two_digits(text[0], text[1]) as u16 * 100 + two_digits(text[2], text[3]) as u16
}

fn month_of(text: &[u8]) -> u8
    requires { has_date_form text.now ≡ true }
    ensures value { result ≡ month_in text.now }
    ensures small { result < 100 }
{
    two_digits(text[5], text[6])
}

fn day_of(text: &[u8]) -> u8
    requires { has_date_form text.now ≡ true }
    ensures value { result ≡ day_in text.now }
    ensures small { result < 100 }
{
    two_digits(text[8], text[9])
}

// The day of a year, month and day of the month, if the calendar has it.
fn civil_day(year: u16, month: u8, day: u8) -> Option<i32>
    requires year { year ≤ 9999 }
    requires month { month < 100 }
    requires day { day < 100 }
    ensures value { result ≡ dates.civil_day year month day }
    ensures valid { IfSome result (λ found. IsDay found) }
{
    match Date::new(year as i16, month as i8, day as i8) {
        Ok(date) => Some(date.to_unix_epoch_day()),
        Err(_) => None,
    }
}

/// The day that a text of ten bytes `DDDD-DD-DD` names, counted from 1 January 1970.
///
/// `None` exactly where the text has another form or the calendar has no such day. The calendar is the
/// Gregorian one, taken back to the year 0000.
pub fn read_date(text: &[u8]) -> Option<i32>
    ensures value { result ≡ date_cell text.now }
    ensures valid { IfSome result (λ day. IsDay day) }
{
    if !is_dated(text) {
        return None;
    }
    civil_day(year_of(text), month_of(text), day_of(text))
}

// The text of a date.
fn spelled(year: u16, month: u8, day: u8) -> [u8; 10]
    requires year { year ≤ 9999 }
    requires month { month < 100 }
    requires day { day < 100 }
    ensures { result ≡ pad4 year ++ 45 ∷ pad2 month ++ 45 ∷ pad2 day }
{
    let high = (year / 100) as u8;
    let low = (year % 100) as u8;
    [
        b'0' + high / 10,
        b'0' + high % 10,
        b'0' + low / 10,
        b'0' + low % 10,
        b'-',
        b'0' + month / 10,
        b'0' + month % 10,
        b'-',
        b'0' + day / 10,
        b'0' + day % 10,
    ]
}

// The text of a day.
pub(crate) fn date_bytes(day: i32) -> [u8; 10]
    requires { IsDay day }
    ensures { result ≡ date_text day }
{
    match Date::from_unix_epoch_day(day as i64) {
        Ok(date) => spelled(date.year as u16, date.month, date.day),
        // It doesn't come: the calendar has the day (`IsDay`).
        Err(_) => [0; 10],
    }
}
