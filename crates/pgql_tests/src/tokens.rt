//! What a reader of the language says of short texts: the pictures were drawn by hand.

ghost use Rattle.std.specs.Prelude.{◌<◌, ◌≤◌, ◌+◌, ◌^◌, length};

use pgql_lexer::{LexFault, Token, TokenKind, cut, lex};
use std::alloc::{AllocError, Global};
use std::test::Fail;

/// Texts, and below each byte of a token the letter of its kind, which is large where the token begins.
const TOKENS: &str = "\
SELECT id(_1)MATCH(a)->()
Wwwwww WwSWwSWwwwwSWSSSSS

<><=>==<<>>
SsSsSsSSSsS

12a_3'a''b'4
NnWwwTtttttN

'/*' a
Tttt W

/*'*/ a
      W

a/**/b/***/
W    W

1 * / 2
N S S N

9223372036854775807 00000000000000000000009
Nnnnnnnnnnnnnnnnnnn Nnnnnnnnnnnnnnnnnnnnnnn

'é' a
Tttt W";

/// Files of queries, and a mark below each byte of a piece.
const PIECES: &str = "\
a;b c;
# ###

a; b
# ##

/* ; */;/*;
        ###

a';'b;'c;''d
##### ######

a/*;*/b; c
####### ##

'/*';'*/'
#### ####

/*/;
####

/*'*/;'
      #

'a;'#;/ * ;
##### ####";

/// Where the texts of tokens begin in their file.
const BASE: u32 = 1000;

fn letters(kind: TokenKind) -> (u8, u8) {
    match kind {
        TokenKind::Word => (b'W', b'w'),
        TokenKind::Number => (b'N', b'n'),
        TokenKind::Text => (b'T', b't'),
        TokenKind::Symbol => (b'S', b's'),
    }
}

/// Draws a stretch, with spaces before it.
fn draw(picture: &mut Vec<u8>, from: u32, to: u32, first: u8, more: u8) -> Result<(), AllocError> {
    for _ in picture.len()..from as usize {
        picture.push(b' ')?;
    }
    for place in from..to {
        picture.push(if place == from { first } else { more })?;
    }
    Ok(())
}

fn draw_token(picture: &mut Vec<u8>, token: &Token) -> Result<(), AllocError> {
    let (first, more) = letters(token.kind);
    let from = token.at.saturating_sub(BASE);
    draw(picture, from, token.end.saturating_sub(BASE), first, more)
}

/// Whether the tokens of the text are drawn so.
fn has_tokens(alloc: Global, text: &str, picture: &str) -> Result<bool, Fail> {
    if text.len() > 1000 {
        return Ok(false);
    }
    let tokens = lex(alloc, text.as_bytes(), BASE)?;
    let mut drawn = Vec::new(alloc);
    for token in tokens.as_slice() {
        draw_token(&mut drawn, token)?;
    }
    Ok(drawn.as_slice() == picture.as_bytes())
}

/// Whether the pieces of the file are drawn so.
fn has_pieces(alloc: Global, text: &str, picture: &str) -> Result<bool, Fail> {
    if text.len() > 1000 {
        return Ok(false);
    }
    let pieces = cut(alloc, text.as_bytes())?;
    let mut drawn = Vec::new(alloc);
    for (from, to) in pieces.as_slice() {
        draw(&mut drawn, *from, *to, b'#', b'#')?;
    }
    Ok(drawn.as_slice() == picture.as_bytes())
}

/// Whether the text, which begins there in its file, is read and has no token.
fn is_blank(alloc: Global, text: &[u8], base: u32) -> Result<bool, LexFault>
    requires { base + length text.now < 2 ^ 32 }
{
    Ok(lex(alloc, text, base)?.as_slice().is_empty())
}

/// Why the text has no tokens, if it has none.
fn fault(alloc: Global, text: &[u8]) -> Option<LexFault> {
    if text.len() > 1000 {
        return None;
    }
    lex(alloc, text, 0).err()
}

#[test]
fn tokens_are_the_longest_at_each_place(rt: HostRuntime) -> Result<(), Fail> {
    for block in TOKENS.split("\n\n") {
        let (text, picture) = block.split_once('\n').unwrap_or((block, ""));
        assert!(rt; has_tokens(rt.alloc(), text, picture)?, "at {text:?}");
    }
    Ok(())
}

#[test]
fn blank_texts_have_no_token(rt: HostRuntime) -> Result<(), Fail> {
    assert!(rt; is_blank(rt.alloc(), b" \t\r\n", 7)?);
    assert!(rt; is_blank(rt.alloc(), b"", 4294967295)?);
    Ok(())
}

#[test]
fn pieces_stand_between_semicolons(rt: HostRuntime) -> Result<(), Fail> {
    for block in PIECES.split("\n\n") {
        let (text, picture) = block.split_once('\n').unwrap_or((block, ""));
        assert!(rt; has_pieces(rt.alloc(), text, picture)?, "at {text:?}");
    }
    Ok(())
}

#[test]
fn texts_outside_utf8_are_refused(rt: HostRuntime) {
    for (text, want) in [
        (
            b"SELECT '\xff' MATCH (a)".as_slice(),
            LexFault::BadCharacter(8),
        ),
        (b"'\xc3\xa9\xc3'".as_slice(), LexFault::BadCharacter(3)),
        (b"'\xff".as_slice(), LexFault::OpenText(0)),
        (b"a;".as_slice(), LexFault::BadCharacter(1)),
    ] {
        assert_eq!(rt; fault(rt.alloc(), text), Some(want), "at {text:?}");
    }
}
