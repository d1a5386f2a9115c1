//! The captures of a query, each with its place.
ghost use Rattle.std.specs.Prelude.{◌≡◌, ◌++◌, [], OnOk, length, map};
ghost use Rattle.std.specs.List.{position_or_len};
ghost use Rattle.typed_expr.specs.Uses as spec;

use crate::query::{Capture, What};
use adfs_base::NoMemory;
use indexmap::IndexSet;
use sqlite_items::Items;
use std::alloc::Global;
use std::hash::{Hash, Hasher};
use std::marker::Model;

// What is used of a variable, as a number.
fn part_of(what: What) -> u64
    ensures { result ≡ spec.part_of what }
{
    match what {
        What::Id => 0,
        What::Label => 1,
        What::Property(number, _) => u64::from(number) + 2,
    }
}

// A use of a variable. It is the same as another where the two use the same of one variable.
#[derive(Clone, Copy)]
struct Use {
    capture: Capture,
}

impl PartialEq for Use {
    ghost use Rattle.std.specs.Prelude.{◌==◌};
    ghost use Rattle.std.specs.Ordering.{eq_of_both, on};
    ghost use Rattle.std.specs.Cmp.Rules.{comparing};
    ghost use Rattle.std.proofs.Common.{rules};
    ghost use Rattle.typed_expr.specs.Uses.{part_of};

    ghost eq = { eq_of_both (on (λ u. u.capture.variable) ◌==◌) (on (λ u. part_of u.capture.what) ◌==◌) };

    ghost laws = { Prim.search (comparing, rules) };

    fn eq(&self, other: &Use) -> bool {
        self.capture.variable == other.capture.variable
            && part_of(self.capture.what) == part_of(other.capture.what)
    }
}

impl Eq for Use {
    ghost use Rattle.std.specs.Cmp.Rules.{comparing};
    ghost use Rattle.std.proofs.Common.{rules};

    ghost laws = { Prim.search (comparing, rules) };
}

impl Hash for Use {
    ghost use Rattle.std.specs.Prelude.{◌++◌};
    ghost use Rattle.std.specs.Hash as fed;
    ghost use Rattle.std.specs.Cmp.Rules.{hashing};
    ghost use Rattle.std.proofs.Common.{rules};
    ghost use Rattle.typed_expr.specs.Uses.{part_of};

    ghost hash_input = { λ u. fed.u32 u.capture.variable ++ fed.u64 (part_of u.capture.what) };

    ghost respects_eq = { Prim.search (hashing, rules) };

    fn hash<H: Hasher>(&self, state: &mut H) {
        self.capture.variable.hash(state);
        part_of(self.capture.what).hash(state);
    }
}

/// The distinct uses of variables in order of first appearance. The place of each is looked up at once.
///
/// A contract sees the list of them.
#[derive(Drop)]
pub struct Captures {
    set: IndexSet<Use>,
}

impl Model for Captures {
    ghost use Rattle.std.specs.Prelude.{List, map};
    ghost use Rattle.typed_query.specs.declared.query.Capture.{Capture};

    ghost Value = { List Capture };

    ghost view = { λ c. map (λ u. u.capture) c.set.keys };
}

impl Captures {
    pub fn new(alloc: Global) -> Captures
        ensures { result ≡ [] }
    {
        Captures {
            set: IndexSet::new(alloc),
        }
    }

    /// Adds a use, if it isn't there.
    pub fn add(&mut self, used: Capture) -> Result<(), NoMemory>
        ensures { OnOk result (self.new ≡ spec.with_use self.old used) }
    {
        let (_place, _new) = self.set.insert_full(Use { capture: used })?;
        Ok(())
    }

    /// The place of a use among them, or their count.
    pub fn place_of(&self, used: Capture) -> usize
        ensures { result ≡ position_or_len (spec.same_use used) self.now }
    {
        match self.set.get_index_of(&Use { capture: used }) {
            Some(place) => place,
            None => self.set.len(),
        }
    }

    /// Adds all of them to a list.
    pub fn put(&self, list: &mut Items<Capture>) -> Result<(), NoMemory>
        ensures { OnOk result (list.new ≡ list.old ++ self.now) }
    {
        for used in self.set.as_slice() {
            list.push(used.capture)?;
        }
        Ok(())
    }
}
