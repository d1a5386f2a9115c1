//! Numbers in decimal digits, within their ranges.
ghost use Rattle.std.specs.Prelude.{◌≡◌, ◌*◌, IsSome, Some, is_some, nat_le};
ghost use Rattle.std.specs.List.{list_all};
ghost use Rattle.std.specs.Char.{is_ascii_digit};
ghost use Rattle.cli_words.specs.Values.{is_file_text, is_number, number_of, number_in};

fn has_no_control_byte(text: &[u8]) -> bool
    ensures { result ≡ list_all (λ b. nat_le 32 b) text.now }
{
    text.iter().all(|b| 32 <= *b)
}

// Whether a text may name a file.
pub(crate) fn is_file_text(text: &str) -> bool
    ensures { result ≡ is_file_text text.now }
{
    !text.is_empty() && has_no_control_byte(text.as_bytes())
}

fn all_digits(word: &[u8]) -> bool
    ensures { result ≡ list_all is_ascii_digit word.now }
{
    word.iter().all(|b| b.is_ascii_digit())
}

// Whether the word is 1 to 20 decimal digits.
fn is_number(word: &str) -> bool
    ensures { result ≡ is_number word.now }
{
    !word.is_empty() && word.len() <= 20 && all_digits(word.as_bytes())
}

// The number that the word says, if it says one.
fn number(word: &str) -> Option<u64>
    ensures { result ≡ number_of word.now }
{
    if !is_number(word) {
        return None;
    }
    match word.parse::<u64>() {
        Ok(number) => Some(number),
        Err(_) => None,
    }
}

// The number that the word says, if it is one from `least` to `greatest`.
pub(crate) fn number_in(word: &str, least: u64, greatest: u64) -> Option<u64>
    ensures { result ≡ number_in least greatest word.now }
{
    match number(word) {
        Some(number) if least <= number && number <= greatest => Some(number),
        _ => None,
    }
}

// Whether the word says a number from `least` to `greatest`.
pub(crate) fn is_in(word: &str, least: u64, greatest: u64) -> bool
    ensures { result ≡ is_some (number_in least greatest word.now) }
{
    number_in(word, least, greatest).is_some()
}

// Whether the word says a number, at most 8 for each vertex.
pub(crate) fn is_edges(word: &str, vertices: u64) -> bool
    ensures { result ≡ is_some (number_in 0 (8 * vertices) word.now) }
{
    is_in(word, 0, vertices.saturating_mul(8))
}

// The number of a word that says one.
pub(crate) fn number_said(word: &str) -> u64
    requires { IsSome (number_of word.now) }
    ensures { number_of word.now ≡ Some result }
{
    number(word).unwrap()
}
