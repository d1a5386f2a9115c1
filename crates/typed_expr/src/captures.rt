//! The captures of a query: its uses of variables, each once.
ghost use Rattle.std.specs.Prelude.{◌≡◌, OnOk, flat_map, fold};
ghost use Rattle.typed_expr.specs.Typed as spec;
ghost use Rattle.typed_expr.specs.Uses as uses;

use crate::capture_set::Captures;
use crate::environment::Environment;
use crate::uses::add_uses;
use adfs_base::NoMemory;
use pgql_tree::{Ast, AstExpr, Item, Key};

fn add_item_uses(
    items: &[Item],
    environment: Environment<'_>,
    found: &mut Captures,
) -> Result<(), NoMemory>
    ensures { OnOk result (found.new ≡ fold uses.with_use found.old (flat_map (λ item. uses.uses environment.entry.schema.now environment.entry.variables.now item.expr) items.now)) }
{
    for item in items {
        add_uses(&item.expr, environment, found)?;
    }
    Ok(())
}

fn add_key_uses(
    keys: &[Key],
    environment: Environment<'_>,
    found: &mut Captures,
) -> Result<(), NoMemory>
    ensures { OnOk result (found.new ≡ fold uses.with_use found.old (flat_map (λ key. uses.uses environment.entry.schema.now environment.entry.variables.now key.expr) keys.now)) }
{
    for key in keys {
        add_uses(&key.expr, environment, found)?;
    }
    Ok(())
}

fn add_condition_uses(
    condition: &Option<AstExpr>,
    environment: Environment<'_>,
    found: &mut Captures,
) -> Result<(), NoMemory>
    ensures { OnOk result (found.new ≡ fold uses.with_use found.old (spec.of_condition (uses.uses environment.entry.schema.now environment.entry.variables.now) condition.now)) }
{
    match condition {
        Some(condition) => add_uses(condition, environment, found),
        None => Ok(()),
    }
}

/// Adds the uses of all expressions, each once.
pub fn add_captures(
    ast: &Ast,
    environment: Environment<'_>,
    found: &mut Captures,
) -> Result<(), NoMemory>
    ensures { OnOk result (found.new ≡ fold uses.with_use found.old (spec.of_all (uses.uses environment.entry.schema.now environment.entry.variables.now) ast.now)) }
{
    add_item_uses(ast.items.as_slice(), environment, found)?;
    add_condition_uses(&ast.condition, environment, found)?;
    add_key_uses(ast.keys.as_slice(), environment, found)
}
