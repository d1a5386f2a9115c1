//! Which select item an order key stands for.
ghost use Rattle.std.specs.Prelude.{◌≡◌, ◌∷◌, ◌++◌, [], IfOk, OnOk, find, map};
ghost use Rattle.std.specs.Option.{option_copied, option_map};
ghost use Rattle.typed_expr.specs.Typed as spec;

use adfs_base::{Name, NoMemory};
use pattern_scope::declarations::Declarations;
use pattern_scope::scope::{Declared, boxed};
use pgql_tree::{AstExpr, Item};
use sqlite_items::{Boxed, at};
use std::alloc::Global;

/// The select items, with that for which their AS names stand.
#[derive(Clone, Copy)]
pub struct Columns<'a> {
    pub items: &'a [Item],
    pub names: &'a Declarations,
}

// The AS name of an item, if it has one, as a name of its own.
fn name_in(alloc: Global, item: &Item) -> Result<Option<Boxed<Name>>, NoMemory>
    ensures { IfOk result (λ name. name ≡ option_map (λ own. own.name) item.now.name) }
{
    match &item.name {
        Some(placed) => Ok(Some(boxed(alloc, &placed.get().name)?)),
        None => Ok(None),
    }
}

/// Adds the AS name of an item, if it has one.
pub fn add_name(alloc: Global, item: &Item, names: &mut Declarations) -> Result<(), NoMemory>
    ensures { OnOk result (names.new ≡ names.old ++ spec.as_declared item.now ∷ []) }
{
    let name = name_in(alloc, item)?;
    names.push(Declared { name, edge: false })
}

/// The same of all.
pub fn add_names(alloc: Global, items: &[Item], names: &mut Declarations) -> Result<(), NoMemory>
    ensures { OnOk result (names.new ≡ names.old ++ map spec.as_declared items.now) }
{
    for item in items {
        add_name(alloc, item, names)?;
    }
    Ok(())
}

// The first item with this AS name.
fn item_called<'a>(columns: Columns<'a>, name: &Name) -> Option<&'a Item>
    requires { columns.names.now ≡ map spec.as_declared columns.items.now }
    ensures { option_copied result ≡ find (spec.is_called name.now) columns.entry.items.now }
{
    match columns.names.variable_of(name) {
        Some((place, _)) => at(columns.items, place),
        None => None,
    }
}

/// The item that an order key stands for, where it is an AS name alone.
pub fn item_of<'a>(columns: Columns<'a>, expr: &AstExpr) -> Option<&'a Item>
    requires { columns.names.now ≡ map spec.as_declared columns.items.now }
    ensures { option_copied result ≡ spec.item_of columns.entry.items.now expr.now }
{
    match expr {
        AstExpr::Name { name, .. } => item_called(columns, name),
        AstExpr::Int { .. } => None,
        AstExpr::Text { .. } => None,
        AstExpr::Date { .. } => None,
        AstExpr::Bool { .. } => None,
        AstExpr::Property { .. } => None,
        AstExpr::Id { .. } => None,
        AstExpr::Label { .. } => None,
        AstExpr::Not { .. } => None,
        AstExpr::Neg { .. } => None,
        AstExpr::IsNull { .. } => None,
        AstExpr::Binary { .. } => None,
    }
}
