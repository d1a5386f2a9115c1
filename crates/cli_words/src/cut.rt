//! A word cut in two at the first of a character.
ghost use Rattle.std.specs.Prelude.{◌≡◌, Option};
ghost use Rattle.std.specs.Option.{option_map};
ghost use Rattle.cli_words.specs.Values.{cut_at};

// What stands before the first `=`, and what stands after it, if there is one.
pub(crate) fn cut_at_equals(word: &str) -> (&str, Option<&str>)
    ensures { (result.0.now, option_map (λ s. s.now) result.1) ≡ cut_at 61 word.now }
{
    match word.split_once('=') {
        Some((before, after)) => (before, Some(after)),
        None => (word, None),
    }
}

// The same at the first `:`.
pub(crate) fn cut_at_colon(word: &str) -> (&str, Option<&str>)
    ensures { (result.0.now, option_map (λ s. s.now) result.1) ≡ cut_at 58 word.now }
{
    match word.split_once(':') {
        Some((before, after)) => (before, Some(after)),
        None => (word, None),
    }
}
