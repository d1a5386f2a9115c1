//! The labels of a pattern.
ghost use Rattle.std.specs.Prelude.{◌≡◌, [], IfOk};

use adfs_base::Name;
use sqlite_items::{Boxed, Items};
use std::alloc::{AllocError, Global};
use std::marker::Model;

/// The labels of a vertex or edge pattern. Most patterns have none: then they take no memory of their own. A contract
/// sees their list.
#[derive(Drop)]
pub struct Labels {
    list: Option<Boxed<Items<Name>>>,
}

impl Model for Labels {
    ghost use Rattle.std.specs.Prelude.{List, ℕ, [], unwrap_or};

    ghost Value = { List (List ℕ) };

    ghost view = { λ l. unwrap_or l.list [] };
}

impl Labels {
    /// No labels.
    pub fn none() -> Labels
        ensures { result ≡ [] }
    {
        Labels { list: None }
    }

    /// These labels.
    pub fn new(alloc: Global, list: Items<Name>) -> Result<Labels, AllocError>
        ensures { IfOk result (λ labels. labels ≡ list) }
    {
        Ok(Labels {
            list: Some(Boxed::new(alloc, list)?),
        })
    }

    /// The labels.
    pub fn as_slice(&self) -> &[Name]
        ensures { result.now ≡ self.now }
    {
        match &self.list {
            None => &[],
            Some(list) => list.get().as_slice(),
        }
    }
}
