//! Tokens one at a time, with no list of them.

ghost use Rattle.std.specs.Prelude.{◌≡◌, ℕ, ◌<◌, ◌≤◌, ◌+◌, ◌-◌, ◌^◌, List, length, IsOk, IfOk, IfErr, Err};
ghost use Rattle.pgql_lexer.specs.Fronts.{FitsIn};
ghost use Rattle.pgql_lexer.specs.Tokens.{HasTokens, IsFirst, Lexed, lexed_after, tokens, with_front};
ghost use Rattle.pgql_lexer.specs.declared.token.Token.{Token};

use crate::fronts::{Front, read_front};
use crate::{LexFault, Token};

// How many bytes stand at this place, where they are passed over or are a token.
fn pass_front(front: Front, place: u32, size: usize) -> Result<usize, LexFault>
    requires fits { FitsIn size front }
    requires short { place + size < 2 ^ 32 }
    ensures ok { IfOk result (λ count. (found : List Token) → (more : List Token) × ((rest : ℕ → Lexed) → with_front found (lexed_after front place rest) ≡ with_front more (rest (count - 1)))) }
    ensures within { IfOk result (λ count. (1 ≤ count) × (count ≤ size)) }
    ensures err { IfErr result (λ e. (rest : ℕ → Lexed) → lexed_after front place rest ≡ Err e) }
{
    match front {
        Front::Gap(count) => Ok(count),
        Front::Whole(_, count) => Ok(count),
        Front::BadCharacter(count) => Err(LexFault::BadCharacter(place + count as u32)),
        Front::OpenText => Err(LexFault::OpenText(place)),
        Front::OpenComment => Err(LexFault::OpenComment(place)),
        Front::WideNumber => Err(LexFault::WideNumber(place)),
    }
}

/// Whether the text, whose first byte stands at `base` in its file, has tokens.
///
/// # Errors
///
/// As those of `lex`, but for running out of memory: it takes none.
pub fn check(text: &[u8], base: u32) -> Result<(), LexFault>
    requires short { base + length text.now < 2 ^ 32 }
    ensures { HasTokens result (tokens base text.now) }
{
    let mut rest = text;
    let mut place = base;
    while !rest.is_empty() {
        let count = pass_front(read_front(rest), place, rest.len())?;
        rest = &rest[count..];
        place += count as u32;
    }
    Ok(())
}

/// The first token of a text that has tokens, and whose first byte stands at `place`.
pub fn first_token(text: &[u8], place: u32) -> Option<Token>
    requires short { place + length text.now < 2 ^ 32 }
    requires lexed { IsOk (tokens place text.now) }
    ensures { IsFirst place text.now result }
{
    let mut rest = text;
    let mut at = place;
    while !rest.is_empty() {
        match read_front(rest) {
            Front::Gap(count) => {
                rest = &rest[count..];
                at += count as u32;
            }
            Front::Whole(kind, count) => {
                return Some(Token {
                    kind,
                    at,
                    end: at + count as u32,
                });
            }
            _ => unreachable!(),
        }
    }
    None
}
