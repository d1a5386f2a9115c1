//! A name as a text of its own.
ghost use Rattle.std.specs.Prelude.{◌≡◌, IfOk};

use crate::no_memory::NoMemory;
use crate::short_text::{ShortText, text_in, text_of};
use std::alloc::Global;
use std::marker::Model;

/// The name of a file, a label, a property or a variable. A contract sees it as its UTF-8 bytes.
///
/// It takes 16 bytes, and memory of its own only where it has more than 14.
#[derive(Drop, Debug)]
pub struct Name {
    held: ShortText,
}

impl Model for Name {
    ghost use Rattle.std.specs.Prelude.{List, ℕ};
    ghost use Rattle.adfs_base.specs.ShortTexts.{IsText, bytes_of};

    ghost Value = { List ℕ };

    ghost view = { λ n. bytes_of n.held };

    ghost invariant = { λ n. IsText n.held };
}

impl Name {
    /// A name of its own, with this text.
    pub fn new(alloc: Global, text: &str) -> Result<Name, NoMemory>
        ensures { IfOk result (λ name. name ≡ text.now) }
    {
        let held = text_of(alloc, text)?;
        Ok(Name { held })
    }

    /// Its text.
    pub fn text(&self) -> &str
        ensures { result.now ≡ self.now }
    {
        text_in(&self.held)
    }
}
