//! The rows of all workers, put together.
ghost use Rattle.std.specs.Prelude.{◌≡◌, ◌++◌, IfOk, OnOk};
ghost use Rattle.world_core.specs.Rows.{all_rows};

use crate::world::World;
use adfs_base::NoMemory;
use match_context::Context;

// Adds rows to those so far. Where there were none, their list serves for all.
fn add(rows: &mut Vec<Context>, own: Vec<Context>) -> Result<(), NoMemory>
    ensures { OnOk result (rows.new.items ≡ rows.old.items ++ own.items) }
{
    if rows.is_empty() {
        *rows = own;
        return Ok(());
    }
    let mut own = own;
    rows.append(&mut own)?;
    Ok(())
}

/// The rows of all workers, in the order of the workers. No worker keeps any.
pub fn take_all(world: &mut World) -> Result<Vec<Context>, NoMemory>
    ensures { IfOk result (λ rows. rows.items ≡ all_rows world.old.workers) }
{
    let count = world.workers().len();
    let mut rows = world.take_rows(0);
    for w in 1..count {
        let own = world.take_rows(w as u32);
        add(&mut rows, own)?;
    }
    Ok(rows)
}
