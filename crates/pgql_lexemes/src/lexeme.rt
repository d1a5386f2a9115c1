//! A token with its kind and its bytes.

ghost use Rattle.std.specs.Prelude.{◌≡◌, ◌<◌, ◌≤◌, ◌^◌, length, true};
ghost use Rattle.std.specs.Str.{IsUtf8};
ghost use Rattle.std.proofs.Props.{props};
ghost use Rattle.pgql_lexer.specs.Fronts.{value_after};
ghost use Rattle.pgql_lexemes.specs.Words.{is_word};
ghost use Rattle.pgql_lexemes.specs.declared.kind.Kind.TheVariants as k;

use crate::kind::Kind;

/// A token as the grammar tells it: its kind, the bytes that are written, and the place of the first.
///
/// A contract speaks of it as a `Lexeme` of specs/Lexemes.antt, which is what `told` makes of it.
#[derive(Clone, Copy)]
pub struct Lexeme<'a> {
    pub kind: Kind,
    pub bytes: &'a [u8],
    pub at: u32,
    // A word is UTF-8.
    ghost word: { is_word kind ≡ true → IsUtf8 bytes.now } by { Prim.hlevel props },
    // A number is within i64.
    ghost number: { kind ≡ k.Number → value_after 0 bytes.now < 2 ^ 63 },
    // A literal has its quotes.
    ghost literal: { kind ≡ k.Text → 2 ≤ length bytes.now },
}
