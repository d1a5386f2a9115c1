//! Where the column of a property is found at once.
ghost use Rattle.std.specs.Prelude.{◌≤◌, ◌≡◌, IfOk};
ghost use Rattle.element_store.specs.Columns.{slot_of};
ghost use Rattle.element_store.specs.Slots as slots;
ghost use Rattle.element_store.specs.Slots.{AreNear, told_by};

use crate::columns::Columns;
use adfs_base::Kind;
use std::alloc::{AllocError, Global};

/// Properties with numbers below this are near.
const MOST_NEAR: u32 = 1024;

/// What the column of a property holds, where its table has one. It is compared at once, where an `Option` of a kind
/// would be in two steps.
#[derive(Clone, Copy, PartialEq, Eq)]
pub(crate) enum Held {
    Int,
    Text,
    Bool,
    Date,
    Nothing,
}

/// What a table has of a property, and where.
#[derive(Clone, Copy)]
pub(crate) struct Slot {
    pub(crate) held: Held,
    /// The place of the column, where there is one.
    pub(crate) place: usize,
}

/// What a column of this kind holds.
pub(crate) fn held_of(kind: Kind) -> Held
    ensures { result ≡ slots.held_of kind }
{
    match kind {
        Kind::Int => Held::Int,
        Kind::Text => Held::Text,
        Kind::Bool => Held::Bool,
        Kind::Date => Held::Date,
    }
}

impl Slot {
    /// The place and the kind of its column.
    pub(crate) fn column(self) -> Option<(usize, Kind)>
        ensures { result ≡ told_by self }
    {
        match self.held {
            Held::Nothing => None,
            Held::Int => Some((self.place, Kind::Int)),
            Held::Text => Some((self.place, Kind::Text)),
            Held::Bool => Some((self.place, Kind::Bool)),
            Held::Date => Some((self.place, Kind::Date)),
        }
    }
}

// What the columns have of a property.
fn sought(columns: &Columns, property: u32) -> Slot
    ensures { told_by result ≡ slot_of columns.now property }
{
    match columns.find(property) {
        Some((place, kind)) => Slot {
            held: held_of(kind),
            place,
        },
        None => Slot {
            held: Held::Nothing,
            place: 0,
        },
    }
}

// One more than the greatest near property that has a column.
fn reach(columns: &Columns) -> u32
    ensures { result ≤ MOST_NEAR }
{
    let mut reach = 0;
    for place in 0..columns.len() {
        let (property, _) = columns.get(place);
        if property < MOST_NEAR && reach <= property {
            reach = property + 1;
        }
    }
    reach
}

/// What the columns have of properties with small numbers, by these numbers.
pub(crate) fn near_columns(alloc: Global, columns: &Columns) -> Result<Vec<Slot>, AllocError>
    ensures { IfOk result (λ near. AreNear near.items columns.now) }
{
    let mut near = Vec::new(alloc);
    for property in 0..reach(columns) {
        near.push(sought(columns, property))?;
    }
    Ok(near)
}

/// What the columns have of a property: a load, where that is near.
pub(crate) fn near_slot(columns: &Columns, near: &[Slot], property: u32) -> Slot
    requires { AreNear near.now columns.now }
    ensures { told_by result ≡ slot_of columns.now property }
{
    if (property as usize) < near.len() {
        near[property as usize]
    } else {
        sought(columns, property)
    }
}
