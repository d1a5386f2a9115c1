//! Command lines that are taken, and what they say.

use adfs_base::PartWord;
use cli_words::{Command, Files, Options, UsageFault, read_words, usage_text};
use std::alloc::Global;
use std::test::Fail;

/// Each value at one of its ends.
const TAKEN: &str = "\
run g q --machines 1 --workers 1 --threads 0 --credits 1 --broad 0 --buffer 1 --lanes 1 --pool 1
run g q --machines 8 --workers 8 --threads 64 --credits 8 --broad 16 --buffer 64 --lanes 8 --pool 115200
trace g q --schedule 0 --part block
trace g q --schedule=18446744073709551615 --part=modulo
trace g q --schedule 00000000000000000007
gen 0 1 0
gen 18446744073709551615 200000 1600000
run --part listed:-x g q
run g \x7f
replay t
plan g q
help";

/// Command lines, and below each its command and its numbers: machines, workers, threads, credits, broad, buffer,
/// lanes, pool, seed, vertices and edges.
const NUMBERS: &str = "\
run --workers 3 graph.txt --part=listed:a:b=c q.txt --pool 9
run 1 3 1 2 2 16 1 9 0 0 0

gen 7 10 --buffer=4 80
gen 1 1 1 2 2 4 1 14400 7 10 80

trace g q --schedule 5
trace 1 1 1 2 2 16 1 14400 5 0 0

run g q --machines 2 --threads=4 --credits 5 --broad=6 --lanes 8
run 2 1 4 5 6 16 8 14400 0 0 0

plan g q
plan 1 1 1 2 2 16 1 14400 0 0 0

replay t
replay 1 1 1 2 2 16 1 14400 0 0 0

help
help 1 1 1 2 2 16 1 14400 0 0 0";

/// The words of a line, parted by single spaces.
fn words_of(alloc: Global, line: &str) -> Result<Vec<String>, Fail> {
    let mut words = Vec::new(alloc);
    for word in line.split(' ') {
        words.push(String::from_str(alloc, word)?)?;
    }
    Ok(words)
}

fn taken(alloc: Global, line: &str) -> Result<Options, Fail> {
    let words = words_of(alloc, line)?;
    Ok(read_words(alloc, words.as_slice())?)
}

fn is_taken(alloc: Global, line: &str) -> Result<bool, Fail> {
    let words = words_of(alloc, line)?;
    Ok(read_words(alloc, words.as_slice()).is_ok())
}

/// The command, and the numbers of the machines' side.
fn first_numbers(alloc: Global, o: &Options) -> Result<String, Fail> {
    Ok(format!(in alloc;
        "{} {} {} {} {} {} {}",
        o.command.name(),
        o.machines,
        o.workers,
        o.threads,
        o.credits,
        o.broad,
        o.buffer
    )?)
}

/// The others.
fn last_numbers(alloc: Global, o: &Options) -> Result<String, Fail> {
    Ok(format!(in alloc;
        "{} {} {} {} {}",
        o.lanes, o.pool, o.seed, o.vertices, o.edges
    )?)
}

/// Whether the line has this command and these numbers.
fn has_numbers(alloc: Global, line: &str, numbers: &str) -> Result<bool, Fail> {
    let options = taken(alloc, line)?;
    let first = first_numbers(alloc, &options)?;
    let last = last_numbers(alloc, &options)?;
    match numbers.strip_prefix(first.as_str()) {
        Some(rest) => Ok(rest.strip_prefix(' ') == Some(last.as_str())),
        None => Ok(false),
    }
}

/// Whether these are the files of the line.
fn has_files(alloc: Global, line: &str, files: &[&str]) -> Result<bool, Fail> {
    let options = taken(alloc, line)?;
    let names = Files::new(options.files.into_names());
    let mut left = files;
    for name in names.names() {
        match left {
            [first, rest @ ..] if name.text() == *first => left = rest,
            _ => return Ok(false),
        }
    }
    Ok(left.is_empty())
}

/// Whether the line's part word is of that file.
fn is_listed(alloc: Global, line: &str, file: &str) -> Result<bool, Fail> {
    let options = taken(alloc, line)?;
    match &options.part {
        PartWord::Listed(name) => Ok(name.text() == file),
        _ => Ok(false),
    }
}

#[test]
fn each_value_may_be_at_its_ends(rt: HostRuntime) -> Result<(), Fail> {
    for line in TAKEN.lines() {
        assert!(rt; is_taken(rt.alloc(), line)?, "at {line:?}");
    }
    Ok(())
}

#[test]
fn numbers_are_those_of_the_options_or_their_defaults(rt: HostRuntime) -> Result<(), Fail> {
    for block in NUMBERS.split("\n\n") {
        let (line, numbers) = block.split_once('\n').unwrap_or((block, ""));
        assert!(rt; has_numbers(rt.alloc(), line, numbers)?, "at {line:?}");
    }
    Ok(())
}

#[test]
fn files_stand_in_the_order_of_their_words(rt: HostRuntime) -> Result<(), Fail> {
    let line = "run --workers 3 graph.txt --part=listed:a:b=c q.txt --pool 9";
    assert!(rt; has_files(rt.alloc(), line, &["graph.txt", "q.txt"])?);
    assert!(rt; is_listed(rt.alloc(), line, "a:b=c")?);
    assert!(rt; has_files(rt.alloc(), "trace g q --schedule 5", &["g", "q"])?);
    assert!(rt; has_files(rt.alloc(), "gen 7 10 --buffer=4 80", &[])?);
    Ok(())
}

#[test]
fn no_words_are_refused_at_the_first(rt: HostRuntime) {
    assert_eq!(rt;
        read_words(rt.alloc(), &[]).err(),
        Some(UsageFault::Word(0))
    );
}

#[test]
fn the_help_text_has_a_line_for_each_command(rt: HostRuntime) -> Result<(), Fail> {
    let text = usage_text(rt.alloc())?;
    assert!(rt; text.as_slice().ends_with(b"\nhelp\n"));
    assert_eq!(rt; Command::Replay.name(), "replay");
    Ok(())
}
