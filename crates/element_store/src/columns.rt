//! The columns of a table.
ghost use Rattle.std.specs.Prelude.{◌≡◌, ◌<◌, ◌^◌, ◌++◌, ◌∷◌, [], OnOk, OnErr, None, Some, length, slice_get};
ghost use Rattle.element_store.specs.Columns.{column_of, slot_of};

use adfs_base::Kind;
use indexmap::IndexMap;
use std::alloc::{AllocError, Global};
use std::marker::Model;

/// The columns of a table, each of another property: the property's number and the kind of its values.
#[derive(Drop)]
pub struct Columns {
    kinds: IndexMap<u32, Kind>,
}

impl Model for Columns {
    ghost use Rattle.std.specs.Prelude.{List};
    ghost use Rattle.element_store.specs.Columns.{Column};

    ghost Value = { List Column };

    ghost view = { λ a. a.kinds.entries };
}

impl Columns {
    /// No columns.
    pub fn new(alloc: Global) -> Columns
        ensures { result ≡ [] }
    {
        Columns {
            kinds: IndexMap::new(alloc),
        }
    }

    /// How many columns there are.
    pub fn len(&self) -> usize
        ensures number { result ≡ length self.now }
        ensures fits { length self.now < 2 ^ 63 }
    {
        self.kinds.len()
    }

    /// The place of the column of this property, from 0.
    pub fn place_of(&self, property: u32) -> Option<usize>
        ensures { result ≡ column_of self.now property }
    {
        self.kinds.get_index_of(&property)
    }

    /// The place and the kind of the column of this property.
    pub(crate) fn find(&self, property: u32) -> Option<(usize, Kind)>
        ensures { result ≡ slot_of self.now property }
    {
        match self.place_of(property) {
            Some(place) => Some((place, self.get(place).1)),
            None => None,
        }
    }

    /// The property and the kind of the column at a place.
    pub fn get(&self, place: usize) -> (u32, Kind)
        requires { place < length self.now }
        ensures { slice_get self.now place ≡ Some result }
    {
        match self.kinds.get_index(place) {
            Some((property, kind)) => (*property, *kind),
            // It doesn't come: the place is a column's.
            None => (0, Kind::Int),
        }
    }

    /// Adds a column of a property that has none yet. After running out of memory nothing has changed.
    pub fn push(&mut self, property: u32, kind: Kind) -> Result<(), AllocError>
        requires { column_of self.old property ≡ None }
        ensures ok { OnOk result (self.new ≡ self.old ++ (property, kind) ∷ []) }
        ensures err { OnErr result (self.new ≡ self.old) }
    {
        self.kinds.insert(property, kind)?;
        Ok(())
    }
}
