//! Sorting, in place.
ghost use Rattle.std.specs.Prelude.{◌≡◌, OnOk, OnErr};
ghost use Rattle.sorted_lists.specs.Sorted.{SortsBy};

use adfs_base::NoMemory;
use std::cmp::Ordering;

/// Sorts the items, in place, with O(n log n) comparisons. Where `compare` answers by a total order, they are then
/// in that order, and those that tie stand as they stood. After `NoMemory` they are as before.
pub fn sort_by<T, F: FnMut(&T, &T) -> Ordering>(
    items: &mut Vec<T>,
    compare: F,
) -> Result<(), NoMemory>
    requires { F.IsAlwaysCallable compare }
    ensures sorted { OnOk result (SortsBy F.FnMut compare items.old.items items.new.items) }
    ensures err { OnErr result (items.new.items ≡ items.old.items) }
{
    items.sort_by(compare)?;
    Ok(())
}
