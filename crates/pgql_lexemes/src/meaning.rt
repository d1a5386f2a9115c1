//! What the bytes of a token mean.

ghost use Rattle.std.specs.Prelude.{◌≡◌, ◌<◌, ◌^◌, IfOk, true};
ghost use Rattle.pgql_lexemes.specs.Lexemes as spec;
ghost use Rattle.pgql_lexemes.specs.Told.{told};
ghost use Rattle.pgql_lexemes.specs.declared.kind.Kind.TheVariants as kind;

use crate::lexeme::Lexeme;
use crate::literal::{undoubled, value_of_digits};
use adfs_base::{Name, NoMemory};
use pgql_tree::{Content, Placed};
use sqlite_items::Boxed;
use std::alloc::{AllocError, Global};

impl<'a> Lexeme<'a> {
    /// The word as a name.
    pub fn name(self, alloc: Global) -> Result<Name, NoMemory>
        requires { spec.is_word self.kind ≡ true }
        ensures { IfOk result (λ name. name ≡ (told self.entry).bytes) }
    {
        match str::from_utf8(self.bytes) {
            Ok(text) => Name::new(alloc, text),
            Err(_) => unreachable!(),
        }
    }

    /// The word as a name with its place.
    pub fn placed(self, alloc: Global) -> Result<Boxed<Placed>, NoMemory>
        requires { spec.is_word self.kind ≡ true }
        ensures { IfOk result (λ p. p ≡ spec.placed (told self.entry)) }
    {
        let placed = Placed {
            name: self.name(alloc)?,
            at: self.at,
        };
        Ok(Boxed::new(alloc, placed)?)
    }

    /// The word as a name in memory of its own.
    pub fn boxed_name(self, alloc: Global) -> Result<Boxed<Name>, NoMemory>
        requires { spec.is_word self.kind ≡ true }
        ensures { IfOk result (λ name. name ≡ (told self.entry).bytes) }
    {
        let name = self.name(alloc)?;
        Ok(Boxed::new(alloc, name)?)
    }

    /// Whether the word is `id`, in any case.
    pub fn is_id(self) -> bool
        ensures { result ≡ spec.is_id (told self.entry) }
    {
        self.bytes.eq_ignore_ascii_case(b"id")
    }

    /// Whether the word is `label`, in any case.
    pub fn is_label(self) -> bool
        ensures { result ≡ spec.is_label (told self.entry) }
    {
        self.bytes.eq_ignore_ascii_case(b"label")
    }

    /// The value of the number.
    pub fn number(self) -> u64
        requires { self.kind ≡ kind.Number }
        ensures value { result ≡ spec.value_of (told self.entry) }
        ensures fits { result < 2 ^ 63 }
    {
        value_of_digits(self.bytes)
    }

    /// The content of the literal.
    pub fn content(self, alloc: Global) -> Result<Content, AllocError>
        requires { self.kind ≡ kind.Text }
        ensures { IfOk result (λ content. content ≡ spec.content_of (told self.entry)) }
    {
        let content = undoubled(alloc, &self.bytes[1..self.bytes.len() - 1])?;
        Content::new(alloc, content)
    }
}
