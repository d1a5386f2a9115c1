//! The tokens of a text as the grammar tells them.

ghost use Rattle.std.specs.Prelude.{◌≡◌, ◌≤◌, ◌+◌, length, slice_index};
ghost use Rattle.pgql_lexemes.specs.Seen as spec;
ghost use Rattle.pgql_lexemes.specs.Told.{told};

use crate::kind::Kind;
use crate::lexeme::Lexeme;
use pgql_lexer::{Token, TokenKind};

/// Whether the word is this keyword, in any case.
fn is(bytes: &[u8], word: &[u8]) -> bool
    ensures { result ≡ spec.is bytes.now word.now }
{
    bytes.eq_ignore_ascii_case(word)
}

fn clause_word(bytes: &[u8]) -> Option<Kind>
    ensures { result ≡ spec.clause_word bytes.now }
{
    if is(bytes, b"select") {
        Some(Kind::Select)
    } else if is(bytes, b"distinct") {
        Some(Kind::Distinct)
    } else if is(bytes, b"as") {
        Some(Kind::As)
    } else if is(bytes, b"match") {
        Some(Kind::Match)
    } else if is(bytes, b"where") {
        Some(Kind::Where)
    } else {
        None
    }
}

fn order_word(bytes: &[u8]) -> Option<Kind>
    ensures { result ≡ spec.order_word bytes.now }
{
    if is(bytes, b"order") {
        Some(Kind::Order)
    } else if is(bytes, b"by") {
        Some(Kind::By)
    } else if is(bytes, b"asc") {
        Some(Kind::Asc)
    } else if is(bytes, b"desc") {
        Some(Kind::Desc)
    } else if is(bytes, b"limit") {
        Some(Kind::Limit)
    } else {
        None
    }
}

fn logic_word(bytes: &[u8]) -> Option<Kind>
    ensures { result ≡ spec.logic_word bytes.now }
{
    if is(bytes, b"and") {
        Some(Kind::And)
    } else if is(bytes, b"or") {
        Some(Kind::Or)
    } else if is(bytes, b"not") {
        Some(Kind::Not)
    } else if is(bytes, b"is") {
        Some(Kind::Is)
    } else {
        None
    }
}

fn value_word(bytes: &[u8]) -> Option<Kind>
    ensures { result ≡ spec.value_word bytes.now }
{
    if is(bytes, b"null") {
        Some(Kind::Null)
    } else if is(bytes, b"true") {
        Some(Kind::True)
    } else if is(bytes, b"false") {
        Some(Kind::False)
    } else if is(bytes, b"date") {
        Some(Kind::Date)
    } else {
        None
    }
}

/// The keyword that a word is, or a name.
#[tactic(auto, unfolding(crate::specs::Seen::word_kind))]
fn word_kind(bytes: &[u8]) -> Kind
    ensures { result ≡ spec.word_kind bytes.now }
{
    if let Some(kind) = clause_word(bytes) {
        return kind;
    }
    if let Some(kind) = order_word(bytes) {
        return kind;
    }
    if let Some(kind) = logic_word(bytes) {
        return kind;
    }
    match value_word(bytes) {
        Some(kind) => kind,
        None => Kind::Name,
    }
}

fn mark_kind(byte: u8) -> Option<Kind>
    ensures { result ≡ spec.mark_kind byte }
{
    match byte {
        b'(' => Some(Kind::Open),
        b')' => Some(Kind::Close),
        b'[' => Some(Kind::OpenBracket),
        b']' => Some(Kind::CloseBracket),
        b',' => Some(Kind::Comma),
        b':' => Some(Kind::Colon),
        b'.' => Some(Kind::Dot),
        b'|' => Some(Kind::Bar),
        _ => None,
    }
}

fn operator_kind(byte: u8) -> Kind
    ensures { result ≡ spec.operator_kind byte }
{
    match byte {
        b'+' => Kind::Plus,
        b'-' => Kind::Minus,
        b'*' => Kind::Star,
        b'/' => Kind::Slash,
        b'=' => Kind::Equal,
        _ => Kind::Percent,
    }
}

fn less_kind(next: u8) -> Kind
    ensures { result ≡ spec.less_kind next }
{
    match next {
        b'>' => Kind::Unequal,
        b'=' => Kind::LessEqual,
        _ => Kind::Less,
    }
}

fn greater_kind(next: u8) -> Kind
    ensures { result ≡ spec.greater_kind next }
{
    match next {
        b'=' => Kind::GreaterEqual,
        _ => Kind::Greater,
    }
}

/// The byte at a place, or 0 past the end.
fn byte(bytes: &[u8], at: usize) -> u8
    ensures { result ≡ slice_index bytes.now at }
{
    if at < bytes.len() { bytes[at] } else { 0 }
}

/// The kind of a symbol, by its first byte and the next.
fn pair_kind(first: u8, next: u8) -> Kind
    ensures { result ≡ spec.pair_kind first next }
{
    match first {
        b'<' => less_kind(next),
        b'>' => greater_kind(next),
        _ => match mark_kind(first) {
            Some(kind) => kind,
            None => operator_kind(first),
        },
    }
}

/// The kind of a symbol.
#[tactic(auto, unfolding(crate::specs::Seen::symbol_kind))]
fn symbol_kind(bytes: &[u8]) -> Kind
    ensures { result ≡ spec.symbol_kind bytes.now }
{
    pair_kind(byte(bytes, 0), byte(bytes, 1))
}

fn kind_of(kind: TokenKind, bytes: &[u8]) -> Kind
    ensures { result ≡ spec.kind_of kind bytes.now }
{
    match kind {
        TokenKind::Word => word_kind(bytes),
        TokenKind::Number => Kind::Number,
        TokenKind::Text => Kind::Text,
        TokenKind::Symbol => symbol_kind(bytes),
    }
}

/// The bytes from one place to another, in a text that begins at `base`.
fn part(text: &[u8], base: u32, at: u32, end: u32) -> &[u8]
    requires low { base ≤ at }
    requires ordered { at ≤ end }
    requires high { end ≤ base + length text.now }
    ensures { result.now ≡ spec.part text.now base at end }
{
    &text[(at - base) as usize..(end - base) as usize]
}

/// The token, whose text begins at `base`.
pub fn lexeme<'a>(text: &'a [u8], base: u32, t: Token) -> Lexeme<'a>
    requires { spec.IsTokenOf text.now base t }
    ensures { told result ≡ spec.seen text.now base t }
{
    let bytes = part(text, base, t.at, t.end);
    Lexeme {
        kind: kind_of(t.kind, bytes),
        bytes,
        at: t.at,
    }
}
