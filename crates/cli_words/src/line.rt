//! A command as `clap` is told of it.
ghost use Rattle.std.specs.Prelude.{◌≡◌, IfOk, fold, map};
ghost use Rattle.clap.specs.Words.{app_of, with_rule};
ghost use Rattle.cli_words.specs.Line.{file_rule, line_of, option_rule};

use crate::Command;
use crate::file_word::FileWord;
use crate::setting::Setting;
use adfs_base::NoMemory;
use clap::Arg;
use std::alloc::Global;

// The command line of a command, as `clap` is told of it. It has no `--help` and no `--version`, which are no
// words of a command line here.
pub(crate) fn command_line<'a>(
    alloc: Global,
    command: Command,
) -> Result<clap::Command<'a>, NoMemory>
    ensures { IfOk result (λ line. app_of line ≡ line_of command) }
{
    let name: &'a str = command.name();
    let line = clap::Command::new(alloc, name)
        .disable_help_flag(true)
        .disable_version_flag(true);
    let line = with_options(alloc, line, command.settings())?;
    with_file_words(alloc, line, command.file_words())
}

// The line with an option of one value.
fn with_option<'a>(
    alloc: Global,
    line: clap::Command<'a>,
    setting: Setting,
) -> Result<clap::Command<'a>, NoMemory>
    ensures { IfOk result (λ new. app_of new ≡ with_rule (app_of line.entry) (option_rule setting)) }
{
    let name: &'a str = setting.long_name();
    Ok(line.arg(Arg::new(alloc, name).long(name))?)
}

// The line with a word in its place.
fn with_file_word<'a>(
    alloc: Global,
    line: clap::Command<'a>,
    file: FileWord,
) -> Result<clap::Command<'a>, NoMemory>
    ensures { IfOk result (λ new. app_of new ≡ with_rule (app_of line.entry) (file_rule file)) }
{
    let name: &'a str = file.name();
    Ok(line.arg(Arg::new(alloc, name))?)
}

// The line with an option of one value for each of these.
fn with_options<'a>(
    alloc: Global,
    line: clap::Command<'a>,
    settings: &[Setting],
) -> Result<clap::Command<'a>, NoMemory>
    ensures { IfOk result (λ new. app_of new ≡ fold with_rule (app_of line.entry) (map option_rule settings.now)) }
{
    let mut line = line;
    for setting in settings {
        line = with_option(alloc, line, *setting)?;
    }
    Ok(line)
}

// The line with a word in its place for each of these.
fn with_file_words<'a>(
    alloc: Global,
    line: clap::Command<'a>,
    files: &[FileWord],
) -> Result<clap::Command<'a>, NoMemory>
    ensures { IfOk result (λ new. app_of new ≡ fold with_rule (app_of line.entry) (map file_rule files.now)) }
{
    let mut line = line;
    for file in files {
        line = with_file_word(alloc, line, *file)?;
    }
    Ok(line)
}
