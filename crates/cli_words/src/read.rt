//! From words to options.
ghost use Rattle.std.specs.Prelude.{◌≡◌, ◌≤◌, IfOk, map};
ghost use Rattle.std.specs.String.{string_bytes};
ghost use Rattle.cli_words.specs.FormOnly.{place_refused};
ghost use Rattle.cli_words.specs.Form.{options_of, read_on};
ghost use Rattle.cli_words.specs.Said.{to_come};
ghost use Rattle.cli_words.specs.Fault.{GivesOptions};
ghost use Rattle.cli_words.specs.Files.{HasItsFiles};
ghost use Rattle.cli_words.specs.Ranges.{IsWithinLimits};

use crate::command::command_named;
use crate::options::Options;
use crate::reading::Reading;
use crate::taking::take_words;
use std::alloc::Global;

/// Why words are no command line.
#[derive(Clone, Copy, Debug, PartialEq, Eq)]
pub enum UsageFault {
    /// The place, from 0, of the first word with which no command line goes on; or the number of words, where
    /// some are missing.
    Word(u32),
    /// Memory ran out.
    NoMemory,
}

/// What the words say: the command's word first, then its file words in order, and among them its options.
///
/// An option is `--name value` or `--name=value`, and is given at most once. The word after `--name` is its
/// value, whatever it begins with. Any other word that begins with `-` is no part of a command line. A number
/// is 1 to 20 decimal digits within its range. A file word, and the file of `--part listed:FILE`, isn't empty
/// and has no byte below 0x20. The options name as many files as their command has: two for `run`, `trace` and
/// `plan`, one for `replay`.
///
/// `Word` comes exactly where the words are no command line. A value out of its range is refused at the word
/// that holds it, an option's name at which nothing follows at the number of words.
pub fn read_words(alloc: Global, words: &[String]) -> Result<Options, UsageFault>
    ensures gives { GivesOptions result (options_of (map string_bytes words.now)) }
    ensures files { IfOk result HasItsFiles }
    ensures limits { IfOk result IsWithinLimits }
{
    let [first, rest @ ..] = words else {
        return Err(UsageFault::Word(0));
    };
    let Some(command) = command_named(first.as_str()) else {
        return Err(UsageFault::Word(0));
    };
    let Ok(reading) = Reading::at_first(alloc, command) else {
        return Err(UsageFault::NoMemory);
    };
    if let Some(place) = refused_place(rest, reading) {
        return Err(UsageFault::Word(place));
    }
    match take_words(alloc, command, words) {
        Ok(options) => Ok(options),
        Err(_) => Err(UsageFault::NoMemory),
    }
}

// The place of the first word after the command's word with which no command line goes on, or of the end where
// some are missing.
#[tactic(auto, using(crate::proofs::WordsInTurn::word_goes_on))]
fn refused_place(words: &[String], first: Reading) -> Option<u32>
    requires { to_come first ≤ 20 }
    ensures { result ≡ place_refused (read_on (map string_bytes words.now) 1 first) }
{
    let mut reading = first;
    let mut place = 1;
    for word in words {
        let Some(next) = reading.read_word(word.as_str()) else {
            return Some(place);
        };
        reading = next;
        place += 1;
    }
    if reading.is_finished() {
        None
    } else {
        Some(place)
    }
}
