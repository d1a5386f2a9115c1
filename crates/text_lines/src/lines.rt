//! The lines that are left of a text.
ghost use Rattle.std.specs.Prelude.{◌≡◌, ◌∷◌, [], ◌≤◌, ◌+◌, drop, length, MatchOption};
ghost use Rattle.std.specs.Str.Lines.{lines, strip_carriage_return};

use crate::words::{after, feed_at};
use std::marker::Model;

/// Reads a text line by line. A contract sees the list of the lines that are left.
#[derive(Drop)]
pub struct Lines<'a> {
    rest: &'a [u8],
}

impl<'a> Model for Lines<'a> {
    ghost use Rattle.std.specs.Prelude.{List, ℕ};
    ghost use Rattle.text_lines.specs.Left.{lines_left};

    ghost Value = { List (List ℕ) };

    ghost view = { λ a. lines_left a.rest };
}

// A line without the carriage return at its end.
fn stripped(line: &[u8]) -> &[u8]
    ensures { result.now ≡ strip_carriage_return line.now }
{
    match line.last() {
        Some(b'\r') => &line[..line.len() - 1],
        _ => line,
    }
}

impl<'a> Lines<'a> {
    /// At the start of a text.
    #[tactic(auto, using(crate::proofs::LineFacts::few_lines))]
    pub fn new(text: &'a [u8]) -> Lines<'a>
        ensures left { result ≡ lines text.now }
        ensures few { length result ≤ length text.now + 1 }
    {
        Lines { rest: text }
    }

    /// The next line, if one is left. Where none is, none comes later either.
    pub fn next(&mut self) -> Option<&'a [u8]>
        ensures line { MatchOption result (self.old ≡ []) (λ line. self.old ≡ line.now ∷ self.new) }
        ensures rest { self.new ≡ drop 1 self.old }
    {
        let rest = self.rest;
        if rest.is_empty() {
            return None;
        }
        match feed_at(rest) {
            Some(n) => {
                self.rest = after(rest, n);
                Some(stripped(&rest[..n]))
            }
            None => {
                self.rest = &[];
                Some(rest)
            }
        }
    }
}
