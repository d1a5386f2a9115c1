//! What stands round a place in a text, and whether its bytes are digits.
ghost use Rattle.std.specs.Prelude.{◌≡◌, ◌==◌, ◌<◌, ◌+◌, ◌*◌, [], MatchOption, drop, false, length, position, true};
ghost use Rattle.std.specs.Char.{is_ascii_digit};
ghost use Rattle.std.specs.List.{after_first, before_first, list_all};
ghost use Rattle.text_lines.specs.Words.{has_space, is_space};

/// The place of the first line feed.
pub fn feed_at(text: &[u8]) -> Option<usize>
    ensures { result ≡ position (λ b. b == 10) text.now }
{
    text.iter().position(|b| *b == b'\n')
}

fn space_at(text: &[u8]) -> Option<usize>
    ensures { result ≡ position is_space text.now }
{
    text.iter().position(|b| *b == b' ')
}

/// The bytes after a place.
pub fn after(text: &[u8], place: usize) -> &[u8]
    requires { place < length text.now }
    ensures { result.now ≡ drop (place + 1) text.now }
{
    &text[place + 1..]
}

/// What stands before the first space and after it, where there is one.
pub fn cut(text: &[u8]) -> Option<(&[u8], &[u8])>
    ensures { MatchOption result
        ((has_space text.now ≡ false) × (after_first is_space text.now ≡ []))
        (λ parts. (has_space text.now ≡ true) × ((parts.0.now ≡ before_first is_space text.now) × (parts.1.now ≡ after_first is_space text.now))) }
{
    match space_at(text) {
        Some(place) => Some((&text[..place], after(text, place))),
        None => None,
    }
}

/// Whether each byte is a decimal digit.
pub fn all_digits(text: &[u8]) -> bool
    ensures { result ≡ list_all is_ascii_digit text.now }
{
    text.iter().all(|b| b.is_ascii_digit())
}
