//! What stands at the front of a text.
ghost use Rattle.std.specs.Prelude.{◌≡◌, ◌≢◌, ◌<◌, ◌≤◌, ◌+◌, ◌-◌, ◌^◌, ◌↔◌, length, slice_index, drop, IfSome, IsTrue, true, false, All, nat_lt};
ghost use Rattle.std.specs.Char.{is_ascii_digit};
ghost use Rattle.std.specs.List.{prefix_len};
ghost use Rattle.std.specs.Str.Lossy.{utf8_valid_len};
ghost use Rattle.pgql_lexer.specs.Fronts as spec;

use crate::TokenKind;

const MOST_NUMBER: u64 = 9223372036854775807;

/// What stands at the front of a text that isn't empty. A number counts its bytes, or those before a bad one.
#[derive(Clone, Copy, Debug, PartialEq, Eq)]
pub enum Front {
    /// Whitespace or a closed comment.
    Gap(usize),
    /// A token.
    Whole(TokenKind, usize),
    /// What begins no token, or a text literal that isn't in UTF-8.
    BadCharacter(usize),
    /// A text literal that isn't closed.
    OpenText,
    /// A comment that isn't closed.
    OpenComment,
    /// A number that is too great.
    WideNumber,
}

/// Space, tab, carriage return and line feed.
pub fn is_space(byte: u8) -> bool
    ensures { result ≡ spec.is_space byte }
{
    matches!(byte, b' ' | b'\t' | b'\r' | b'\n')
}

fn begins_word(byte: u8) -> bool
    ensures { result ≡ spec.begins_word byte }
{
    byte.is_ascii_alphabetic() || byte == b'_'
}

fn is_word_byte(byte: u8) -> bool
    ensures { result ≡ spec.is_word_byte byte }
{
    byte.is_ascii_alphanumeric() || byte == b'_'
}

fn is_symbol(byte: u8) -> bool
    ensures { result ≡ spec.is_symbol byte }
{
    byte == b'('
        || byte == b')'
        || byte == b'['
        || byte == b']'
        || byte == b','
        || byte == b':'
        || byte == b'.'
        || byte == b'|'
        || byte == b'+'
        || byte == b'-'
        || byte == b'*'
        || byte == b'/'
        || byte == b'%'
        || byte == b'='
        || byte == b'<'
        || byte == b'>'
}

fn is_pair(byte: u8, next: u8) -> bool
    ensures { result ≡ spec.is_pair byte next }
{
    (byte == b'<' && (next == b'>' || next == b'=')) || (byte == b'>' && next == b'=')
}

/// The byte at a place, or 0 past the end.
pub fn byte_at(text: &[u8], place: usize) -> u8
    ensures value { result ≡ slice_index text.now place }
    ensures within { result ≢ 0 → place < length text.now }
{
    if place < text.len() { text[place] } else { 0 }
}

fn word_len(text: &[u8]) -> usize
    ensures value { result ≡ prefix_len spec.is_word_byte text.now }
    ensures within { result ≤ length text.now }
    ensures moves { spec.is_word_byte (slice_index text.now 0) ≡ true → 0 < length text.now → 0 < result }
{
    let mut end = 0;
    while end < text.len() && is_word_byte(text[end]) {
        end += 1;
    }
    end
}

fn digits_len(text: &[u8]) -> usize
    ensures value { result ≡ prefix_len is_ascii_digit text.now }
    ensures within { result ≤ length text.now }
    ensures moves { is_ascii_digit (slice_index text.now 0) ≡ true → 0 < length text.now → 0 < result }
{
    let mut end = 0;
    while end < text.len() && text[end].is_ascii_digit() {
        end += 1;
    }
    end
}

/// The place after the closing quote of a literal, whose content begins at place 1.
pub fn literal_end(mut content: &[u8]) -> Option<usize>
    requires { length content.now < 2 ^ 32 }
    ensures value { result ≡ spec.literal_end false 1 content.entry.now }
    ensures within { IfSome result (λ end. (1 < end) × (end ≤ length content.entry.now + 1)) }
{
    let mut place: usize = 1;
    let mut is_second = false;
    while let [byte, rest @ ..] = content {
        if !is_second && *byte == b'\'' && byte_at(rest, 0) != b'\'' {
            return Some(place + 1);
        }
        is_second = !is_second && *byte == b'\'';
        place += 1;
        content = rest;
    }
    None
}

/// The place after the `*/` of a comment, whose content begins at place 2.
pub fn comment_end(mut content: &[u8]) -> Option<usize>
    requires { length content.now < 2 ^ 32 }
    ensures value { result ≡ spec.comment_end 2 content.entry.now }
    ensures within { IfSome result (λ end. (2 < end) × (end ≤ length content.entry.now + 2)) }
{
    let mut place: usize = 2;
    while let [byte, rest @ ..] = content {
        if *byte == b'*' && byte_at(rest, 0) == b'/' {
            return Some(place + 2);
        }
        place += 1;
        content = rest;
    }
    None
}

// How many bytes the longest front in UTF-8 has.
fn valid_len(text: &[u8]) -> usize
    ensures { result ≡ utf8_valid_len text.now }
{
    match std::str::from_utf8(text) {
        Ok(_) => text.len(),
        Err(e) => e.valid_up_to(),
    }
}

// Whether the value of the digits is above the greatest number.
fn is_wide(digits: &[u8]) -> bool
    ensures { result ≡ nat_lt spec.most_number (spec.value_after 0 digits.now) }
{
    let mut value: u64 = 0;
    let mut rest = digits;
    while let [byte, more @ ..] = rest {
        let digit = u64::from(byte.saturating_sub(b'0'));
        if value > (MOST_NUMBER - digit) / 10 {
            return true;
        }
        value = 10 * value + digit;
        rest = more;
    }
    false
}

fn number(text: &[u8]) -> Front
    requires digit { is_ascii_digit (slice_index text.now 0) ≡ true }
    requires some { 0 < length text.now }
    ensures value { result ≡ spec.number_of text.now }
    ensures fits { spec.FitsIn (length text.now) result }
{
    let end = digits_len(text);
    if is_wide(&text[..end]) {
        Front::WideNumber
    } else {
        Front::Whole(TokenKind::Number, end)
    }
}

fn literal(text: &[u8]) -> Front
    requires some { 0 < length text.now }
    requires short { length text.now < 2 ^ 32 }
    ensures value { result ≡ spec.literal_to text.now (spec.literal_end false 1 (drop 1 text.now)) }
    ensures fits { spec.FitsIn (length text.now) result }
{
    match literal_end(&text[1..]) {
        None => Front::OpenText,
        Some(end) => {
            let valid = valid_len(&text[..end]);
            if valid < end {
                Front::BadCharacter(valid)
            } else {
                Front::Whole(TokenKind::Text, end)
            }
        }
    }
}

fn comment(text: &[u8]) -> Front
    requires some { 1 < length text.now }
    requires short { length text.now < 2 ^ 32 }
    ensures value { result ≡ spec.comment_to (spec.comment_end 2 (drop 2 text.now)) }
    ensures fits { spec.FitsIn (length text.now) result }
{
    match comment_end(&text[2..]) {
        None => Front::OpenComment,
        Some(end) => Front::Gap(end),
    }
}

/// What stands at the front of the text.
#[tactic(auto, unfolding(crate::specs::Fronts::front_of))]
pub fn read_front(text: &[u8]) -> Front
    requires some { 0 < length text.now }
    requires short { length text.now < 2 ^ 32 }
    ensures value { result ≡ spec.front_of text.now }
    ensures fits { spec.FitsIn (length text.now) result }
{
    let byte = byte_at(text, 0);
    if is_space(byte) {
        Front::Gap(1)
    } else if begins_word(byte) {
        Front::Whole(TokenKind::Word, word_len(text))
    } else if byte.is_ascii_digit() {
        number(text)
    } else if byte == b'\'' {
        literal(text)
    } else if byte == b'/' && byte_at(text, 1) == b'*' {
        comment(text)
    } else if is_pair(byte, byte_at(text, 1)) {
        Front::Whole(TokenKind::Symbol, 2)
    } else if is_symbol(byte) {
        Front::Whole(TokenKind::Symbol, 1)
    } else {
        Front::BadCharacter(0)
    }
}
