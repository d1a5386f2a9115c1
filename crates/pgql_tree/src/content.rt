//! The content of a literal.
ghost use Rattle.std.specs.Prelude.{◌≡◌, IfOk};

use sqlite_items::{Boxed, Items};
use std::alloc::{AllocError, Global};
use std::marker::Model;

/// The bytes of a literal's content, in memory of their own, so that a node with them is small. A contract sees their list.
#[derive(Drop)]
pub struct Content {
    bytes: Boxed<Items<u8>>,
}

impl Model for Content {
    ghost use Rattle.std.specs.Prelude.{List, ℕ};

    ghost Value = { List ℕ };

    ghost view = { λ c. c.bytes };
}

impl Content {
    /// These bytes.
    pub fn new(alloc: Global, bytes: Items<u8>) -> Result<Content, AllocError>
        ensures { IfOk result (λ content. content ≡ bytes) }
    {
        Ok(Content {
            bytes: Boxed::new(alloc, bytes)?,
        })
    }

    /// The bytes.
    pub fn as_slice(&self) -> &[u8]
        ensures { result.now ≡ self.now }
    {
        self.bytes.get().as_slice()
    }
}
