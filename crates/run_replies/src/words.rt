//! The options that the words say, where all that they ask for is built.
ghost use Rattle.std.specs.Prelude.{◌≡◌, IfErr, IfOk, map};
ghost use Rattle.std.specs.List.{list_any};
ghost use Rattle.std.specs.Str.{bytes_eq};
ghost use Rattle.std.specs.String.{string_bytes};
ghost use Rattle.run_replies.specs.Parts.{IsOfWords, PartGives};
ghost use Rattle.run_replies.specs.Words.{IsSized, accepted, is_built};
ghost use Rattle.cli_words.specs.Files.{HasItsFiles};
ghost use Rattle.cli_words.specs.Ranges.{IsWithinLimits};
ghost use Rattle.cli_words.specs.Values.{cut_at};

use cli_words::{Command, Options, UsageFault, read_words};
use run_status::Status;
use std::alloc::Global;

// The name of the option that a word gives, or the word itself.
fn option_name(word: &str) -> &str
    ensures { result.now ≡ (cut_at 61 word.now).0 }
{
    match word.split_once('=') {
        Some((name, _)) => name,
        None => word,
    }
}

// Whether an option of this name is among the words.
fn is_given(name: &str, words: &[String]) -> bool
    ensures { result ≡ list_any (λ word. bytes_eq (cut_at 61 (string_bytes word)).0 name.now) words.now }
{
    words.iter().any(|word| option_name(word.as_str()) == name)
}

// Whether all that is asked of the command is built.
fn is_built(command: Command, words: &[String]) -> bool
    ensures { result ≡ is_built command (map string_bytes words.now) }
{
    match command {
        Command::Run => !is_given("--lanes", words) && !is_given("--pool", words),
        _ => true,
    }
}

/// What the words say. `Usage` comes exactly where they are outside the form, and `NotBuilt` exactly where they
/// are of the form and ask for what isn't built.
pub fn accepted(alloc: Global, words: &[String]) -> Result<Options, Status>
    ensures gives { PartGives (λ options. options) result (accepted (map string_bytes words.now)) }
    ensures files { IfOk result HasItsFiles }
    ensures limits { IfOk result IsWithinLimits }
    ensures sizes { IfOk result IsSized }
    ensures status { IfErr result IsOfWords }
{
    match read_words(alloc, words) {
        Ok(options) if is_built(options.command, words) => Ok(options),
        Ok(_) => Err(Status::NotBuilt { what: 1000 }),
        Err(UsageFault::Word(word)) => Err(Status::Usage { word }),
        Err(UsageFault::NoMemory) => Err(Status::NoMemory),
    }
}
