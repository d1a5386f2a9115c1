//! From what `clap` found to options.
ghost use Rattle.std.specs.Prelude.{◌≡◌, IfOk, IsOk, IsSome, Ok, Some, drop, map, option_map, true};
ghost use Rattle.std.specs.String.{string_bytes};
ghost use Rattle.clap.specs.Words.{found_of, matches_of, rows_of, takes};
ghost use Rattle.cli_words.specs.Form.{read_on};
ghost use Rattle.cli_words.specs.Line.{line_of};
ghost use Rattle.cli_words.specs.Said.{at_first};
ghost use Rattle.cli_words.specs.Taken.{options_found, with_files_found, with_settings_found, with_value};

use crate::Command;
use crate::file_word::FileWord;
use crate::line::command_line;
use crate::options::Options;
use crate::setting::Setting;
use adfs_base::NoMemory;
use clap::ArgMatches;
use clap::error::ErrorKind;
use std::alloc::Global;

// What the words of a command line say: the command's word, and the words after it.
pub(crate) fn take_words(
    alloc: Global,
    command: Command,
    words: &[String],
) -> Result<Options, NoMemory>
    requires { IsOk (read_on (map string_bytes (drop 1 words.now)) 1 (at_first command)) }
    ensures { IfOk result (λ options. read_on (map string_bytes (drop 1 words.now)) 1 (at_first command) ≡ Ok options) }
{
    let matches = find_words(alloc, command, words)?;
    take_options(alloc, command, &matches)
}

// What `clap` finds in words that it takes. It passes over the first, the command's word.
fn find_words<'a>(
    alloc: Global,
    command: Command,
    words: &'a [String],
) -> Result<ArgMatches<'a>, NoMemory>
    requires { takes (line_of command) (map string_bytes words.now) ≡ true }
    ensures { IfOk result (λ matches. rows_of (found_of matches) ≡ matches_of (line_of command) (map string_bytes words.now)) }
{
    let line = command_line(alloc, command)?;
    match line.try_get_matches_from(words) {
        Ok(matches) => Ok(matches),
        Err(error) => match error.kind() {
            ErrorKind::OutOfMemory => Err(NoMemory),
            _ => unreachable!(),
        },
    }
}

// The options that were found.
fn take_options(
    alloc: Global,
    command: Command,
    matches: &ArgMatches<'_>,
) -> Result<Options, NoMemory>
    requires { IsSome (options_found command (rows_of (found_of matches.now))) }
    ensures { IfOk result (λ options. options_found command (rows_of (found_of matches.now)) ≡ Some options) }
{
    let options = Options::at_first(alloc, command);
    let options = take_files(alloc, command.file_words(), matches, options)?;
    take_settings(alloc, command.settings(), matches, options)
}

// The options with what was found for each of the file words.
fn take_files(
    alloc: Global,
    files: &[FileWord],
    matches: &ArgMatches<'_>,
    options: Options,
) -> Result<Options, NoMemory>
    requires { IsSome (with_files_found files.now (rows_of (found_of matches.now)) options) }
    ensures { IfOk result (λ new. with_files_found files.now (rows_of (found_of matches.now)) options ≡ Some new) }
{
    let mut options = options;
    for file in files {
        let Some(word) = file.found_in(matches) else {
            unreachable!()
        };
        options = file.into_options(alloc, word, options)?;
    }
    Ok(options)
}

// The options with the value that was found for each of these, where one was.
fn take_settings(
    alloc: Global,
    settings: &[Setting],
    matches: &ArgMatches<'_>,
    options: Options,
) -> Result<Options, NoMemory>
    requires { IsSome (with_settings_found settings.now (rows_of (found_of matches.now)) options) }
    ensures { IfOk result (λ new. with_settings_found settings.now (rows_of (found_of matches.now)) options ≡ Some new) }
{
    let mut options = options;
    for setting in settings {
        options = take_value(alloc, *setting, setting.found_in(matches), options)?;
    }
    Ok(options)
}

// The options with a value, if there is one.
fn take_value(
    alloc: Global,
    setting: Setting,
    word: Option<&str>,
    options: Options,
) -> Result<Options, NoMemory>
    requires { IsSome (with_value setting (option_map (λ s. s.now) word) options) }
    ensures { IfOk result (λ new. with_value setting (option_map (λ s. s.now) word.entry) options ≡ Some new) }
{
    match word {
        Some(word) => setting.into_options(alloc, word, options),
        None => Ok(options),
    }
}
