//! Lists of things that have one text.

ghost use Rattle.std.specs.Prelude.{◌≡◌, ◌++◌, List, ℕ, flat_map, OnOk};
ghost use Rattle.pgql_print.specs.Printing.{between};

use crate::write_expr::put;
use std::alloc::AllocError;

/// What has one text.
pub trait Written {
    ghost text: { Self → List ℕ };

    /// Adds its text.
    fn put(&self, out: &mut Vec<u8>) -> Result<(), AllocError>
        ensures { OnOk result (out.new.items ≡ out.old.items ++ text self.now) };
}

/// Adds the texts, each after the mark.
pub fn put_each<T: Written>(out: &mut Vec<u8>, mark: &[u8], items: &[T]) -> Result<(), AllocError>
    ensures { OnOk result (out.new.items ≡ out.old.items ++ flat_map (λ x. mark.now ++ T.text x) items.now) }
{
    let mut rest = items;
    while let [item, more @ ..] = rest {
        put(out, mark)?;
        item.put(out)?;
        rest = more;
    }
    Ok(())
}

/// Adds the texts, with the mark between two.
pub fn put_between<T: Written>(
    out: &mut Vec<u8>,
    mark: &[u8],
    items: &[T],
) -> Result<(), AllocError>
    ensures { OnOk result (out.new.items ≡ out.old.items ++ between mark.now T.text items.now) }
{
    let [item, more @ ..] = items else {
        return Ok(());
    };
    item.put(out)?;
    put_each(out, mark, more)?;
    Ok(())
}
