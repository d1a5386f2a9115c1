//! The tokens of a text.
ghost use Rattle.std.specs.Prelude.{◌≡◌, ◌≢◌, ℕ, ◌<◌, ◌≤◌, ◌+◌, ◌-◌, ◌^◌, length, All, IfOk, IfErr};
ghost use Rattle.pgql_lexer.specs.Fronts.{FitsIn};
ghost use Rattle.pgql_lexer.specs.Tokens.{Gives, Lexed, TokenBetween, TokensBetween, lexed_after, tokens, with_front};

use crate::fronts::{Front, read_front};
use crate::{LexFault, Token};
use std::alloc::{AllocError, Global};

// Adds the token that stands at this place, if it is one, and answers how many bytes stand there.
fn take_front(
    found: &mut Vec<Token>,
    front: Front,
    place: u32,
    size: usize,
) -> Result<usize, LexFault>
    requires fits { FitsIn size front }
    requires short { place + size < 2 ^ 32 }
    ensures ok { IfOk result (λ count. (rest : ℕ → Lexed) → with_front found.old.items (lexed_after front place rest) ≡ with_front found.new.items (rest (count - 1))) }
    ensures within { IfOk result (λ count. (1 ≤ count) × (count ≤ size)) }
    ensures order { IfOk result (λ count. (from : ℕ) → TokensBetween from place found.old.items → TokensBetween from (place + count) found.new.items) }
    ensures few { IfOk result (λ count. length found.new.items ≤ length found.old.items + count) }
    ensures err { IfErr result (λ e. e ≢ LexFault.NoMemory → (rest : ℕ → Lexed) → lexed_after front place rest ≡ Err e) }
{
    match front {
        Front::Gap(count) => Ok(count),
        Front::Whole(kind, count) => {
            let end = place + count as u32;
            found
                .push(Token {
                    kind,
                    at: place,
                    end,
                })
                .map_err(AllocError::from)?;
            Ok(count)
        }
        Front::BadCharacter(count) => Err(LexFault::BadCharacter(place + count as u32)),
        Front::OpenText => Err(LexFault::OpenText(place)),
        Front::OpenComment => Err(LexFault::OpenComment(place)),
        Front::WideNumber => Err(LexFault::WideNumber(place)),
    }
}

/// The tokens of a query, whose first byte stands at `base` in its file.
///
/// At each place the longest token is taken. Whitespace (space, tab, carriage return, line feed) and
/// comments (from `/*` to the next `*/`) part tokens and are none. The tokens stand in the order of the
/// text, and none is empty.
///
/// # Errors
///
/// The first thing in the text that is no token: see `LexFault`.
pub fn lex(alloc: Global, text: &[u8], base: u32) -> Result<Vec<Token>, LexFault>
    requires short { base + length text.now < 2 ^ 32 }
    ensures exact { Gives (λ found. found.items) result (tokens base text.now) }
    ensures order { IfOk result (λ found. TokensBetween base (base + length text.now) found.items) }
    ensures within { IfOk result (λ found. All (TokenBetween base (base + length text.now)) found.items) }
    ensures few { IfOk result (λ found. length found.items ≤ length text.now) }
{
    let mut found = Vec::new(alloc);
    let mut rest = text;
    let mut place = base;
    while !rest.is_empty() {
        let count = take_front(&mut found, read_front(rest), place, rest.len())?;
        rest = &rest[count..];
        place += count as u32;
    }
    Ok(found)
}
