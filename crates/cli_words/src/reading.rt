//! The first word with which no command line goes on.
ghost use Rattle.std.specs.Prelude.{◌≡◌, ◌<◌, ◌≤◌, ◌+◌, IfOk, IfSome, is_some, position};
ghost use Rattle.std.specs.Option.{option_map};
ghost use Rattle.std.specs.Str.{bytes_eq};
ghost use Rattle.cli_words.specs.Rows.{setting_name};

use crate::Command;
use crate::cut::cut_at_equals;
use crate::file_word::FileWord;
use crate::setting::Setting;
use adfs_base::NoMemory;
use std::alloc::Global;
use std::marker::Model;

// What may still come after the words so far. A contract sees what they said, without the values of options: these take no part in
// which words go on, but for the number of vertices.
#[derive(Drop)]
pub struct Reading {
    // The file words that must still come, in order.
    missing: &'static [FileWord],
    // The options that may still come.
    left: Vec<Setting>,
    // The option whose value is the next word.
    awaited: Option<Setting>,
    // How many vertices the words so far say.
    vertices: u64,
}

impl Model for Reading {
    ghost use Rattle.cli_words.specs.FormOnly.{only_vertices};
    ghost use Rattle.cli_words.specs.Said.{Said};

    ghost Value = { Said };

    ghost view = { λ r. record { options = only_vertices r.vertices; missing = r.missing.now; left = r.left.items; awaited = r.awaited } };
}

// The place in the list of the option of that name.
fn place_of(left: &[Setting], name: &str) -> Option<usize>
    ensures { result ≡ position (λ setting. bytes_eq (setting_name setting) name.now) left.now }
{
    left.iter().position(|setting| setting.name() == name)
}

impl Reading {
    ghost use Rattle.cli_words.specs.FormOnly.{form_only};
    ghost use Rattle.cli_words.specs.Said.{Said, at_first, to_come, words_awaited};
    ghost use Rattle.cli_words.specs.Form.{read_word, read_value, read_option, read_cut, read_named, read_file, finished};

    // After the command alone.
    pub(crate) fn at_first(alloc: Global, command: Command) -> Result<Reading, NoMemory>
        ensures { IfOk result (λ reading. reading ≡ form_only (at_first command)) }
    {
        Ok(Reading {
            missing: command.file_words(),
            left: command.settings().to_vec(alloc)?,
            awaited: None,
            vertices: 0,
        })
    }

    // After one more word, where a command line goes on with it.
    pub(crate) fn read_word(self, word: &str) -> Option<Reading>
        ensures gives { result ≡ option_map form_only (read_word word.now self) }
        ensures fewer { IfSome result (λ reading. to_come reading < to_come self) }
    {
        match self.awaited {
            Some(setting) => self.read_value(setting, word),
            None if word.as_bytes().first() == Some(&b'-') => self.read_option(word),
            None => self.read_file(word),
        }
    }

    // The word is the value of this option.
    fn read_value(self, setting: Setting, word: &str) -> Option<Reading>
        ensures gives { result ≡ option_map form_only (read_value setting word.now self) }
        ensures fewer { IfSome result (λ reading. to_come reading + words_awaited self.awaited ≡ to_come self) }
    {
        if !setting.takes(word) {
            return None;
        }
        Some(Reading {
            awaited: None,
            ..self
        })
    }

    // The word is an option, with its value or without.
    fn read_option(self, word: &str) -> Option<Reading>
        ensures gives { result ≡ option_map form_only (read_option word.now self) }
        ensures fewer { IfSome result (λ reading. to_come reading < to_come self) }
    {
        let (name, value) = cut_at_equals(word);
        self.read_name(name, value)
    }

    // The option of that name, and its value if it stands in the same word.
    fn read_name(mut self, name: &str, value: Option<&str>) -> Option<Reading>
        ensures gives { result ≡ option_map form_only (read_cut (name.now, option_map (λ s. s.now) value.entry) self) }
        ensures fewer { IfSome result (λ reading. to_come reading < to_come self) }
    {
        let place = place_of(&self.left, name)?;
        let setting = self.left.remove(place);
        self.read_named(setting, value)
    }

    // The option, which may come no more, and its value if it stands in the same word.
    fn read_named(self, setting: Setting, value: Option<&str>) -> Option<Reading>
        ensures gives { result ≡ option_map form_only (read_named (option_map (λ s. s.now) value.entry) setting self) }
        ensures fewer { IfSome result (λ reading. to_come reading + words_awaited self.awaited ≤ to_come self + 1) }
    {
        match value {
            Some(value) => self.read_value(setting, value),
            None => Some(Reading {
                awaited: Some(setting),
                ..self
            }),
        }
    }

    // The word is the first of the file words that must still come.
    fn read_file(self, word: &str) -> Option<Reading>
        ensures gives { result ≡ option_map form_only (read_file word.now self) }
        ensures fewer { IfSome result (λ reading. to_come reading < to_come self) }
    {
        let [file, missing @ ..] = self.missing else {
            return None;
        };
        let vertices = file.vertices_after(word, self.vertices)?;
        Some(Reading {
            missing,
            vertices,
            ..self
        })
    }

    // Whether no word is missing.
    pub(crate) fn is_finished(&self) -> bool
        ensures { result ≡ is_some (finished self.now) }
    {
        match self.awaited {
            None => self.missing.is_empty(),
            Some(_) => false,
        }
    }
}
