//! The words of a command line, read into options or refused at the word from which no command line goes on.
//!
//! A command line is a command, then its file words in order, and among them options, each at most once, as
//! `--name value` or `--name=value`. What it comes to is `options_of` (specs/Form.antt): a reading of one word
//! after the other, where each word either goes on from what was said before or is refused. The tables stand
//! in specs/Rows.antt (which file words and which options a command has) and in specs/Values.antt (what each
//! option and each file word may say, with its range).
//!
//! The form is checked first, word by word, and then the values are taken with `clap`, which is told of the
//! command's options and file words (`line_of`, specs/Line.antt). It takes every command line, and what it
//! finds (`options_found`, specs/Taken.antt) is what `options_of` says: one induction over the words shows it
//! for all commands (proofs/SameWalk.antt).
//!
//! `read_words` is exact: it gives the options, or the place of the refused word, as `options_of` does, and
//! else only that memory ran out. `refusals_come_first` says what that place is: whatever follows the word there,
//! it is no command line, and the words before it are the front of one. `usage_text` is the text that those
//! tables make. Whether a file is there, and which commands are answered yet, is for the caller.
#![tactic(auto)]

mod command;
mod cut;
mod file_word;
mod laws;
mod line;
mod number;
mod options;
mod part;
mod read;
mod reading;
mod setting;
mod taking;
mod usage;

pub use command::Command;
pub use laws::refusals_come_first;
pub use options::{Files, Options};
pub use read::{UsageFault, read_words};
pub use usage::usage_text;
