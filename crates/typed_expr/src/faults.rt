//! All faults of a query.
ghost use Rattle.std.specs.Prelude.{◌≡◌, ◌++◌, [], List, IfOk, OnOk, Some, flat_map, map};
ghost use Rattle.std.specs.Bool.{OnTrue};
ghost use Rattle.pgql_tree.specs.declared.ast.Item.{Item};
ghost use Rattle.typed_expr.specs.Kinds as kinds;
ghost use Rattle.typed_expr.specs.Typed as spec;

use crate::environment::Environment;
use crate::items::{Columns, add_name, item_of};
use crate::kinds::{check, first_of, one_part};
use crate::selected::{Selection, add_all_written, is_selected};
use adfs_base::{Kind, NoMemory};
use graph_tables::Schema;
use pattern_scope::declarations::Declarations;
use pattern_scope::fault::TypeFault;
use pattern_scope::joined::add_disconnected;
use pattern_scope::scope::Scope;
use pgql_tree::{Ast, AstExpr, Item, Key, Placed};
use sqlite_items::{Boxed, Items};
use std::alloc::Global;
use value_text::Texts;

// What the faults of expressions depend on.
#[derive(Clone, Copy)]
struct Setting<'a> {
    alloc: Global,
    environment: Environment<'a>,
    distinct: bool,
}

fn add_fault(
    verdict: Result<Kind, TypeFault>,
    faults: &mut Items<TypeFault>,
) -> Result<(), NoMemory>
    ensures { OnOk result (faults.new ≡ faults.old ++ spec.faults_in verdict) }
{
    if let Err(e) = verdict {
        faults.push(e)?;
    }
    Ok(())
}

fn add_item_faults(
    items: &[Item],
    environment: Environment<'_>,
    faults: &mut Items<TypeFault>,
) -> Result<(), NoMemory>
    ensures { OnOk result (faults.new ≡ faults.old ++ flat_map (λ item. spec.faults_in (kinds.checked environment.entry.schema.now environment.entry.variables.now item.expr).kind) items.now) }
{
    for item in items {
        add_fault(check(&item.expr, environment).kind, faults)?;
    }
    Ok(())
}

fn add_if_double(
    earlier: &Declarations,
    placed: &Placed,
    faults: &mut Items<TypeFault>,
) -> Result<(), NoMemory>
    ensures { (items : List Item) → earlier.now ≡ map spec.as_declared items → OnOk result (faults.new ≡ faults.old ++ spec.double_name items (Some placed.now)) }
{
    if earlier.variable_of(&placed.name).is_some() {
        faults.push(TypeFault::DoubleName(placed.at))?;
    }
    Ok(())
}

fn add_double_name(
    earlier: &Declarations,
    name: &Option<Boxed<Placed>>,
    faults: &mut Items<TypeFault>,
) -> Result<(), NoMemory>
    ensures { (items : List Item) → earlier.now ≡ map spec.as_declared items → OnOk result (faults.new ≡ faults.old ++ spec.double_name items name.now) }
{
    match name {
        Some(placed) => add_if_double(earlier, placed.get(), faults),
        None => Ok(()),
    }
}

// Adds the faults of AS names, and the names.
fn add_double_names(
    alloc: Global,
    items: &[Item],
    names: &mut Declarations,
    faults: &mut Items<TypeFault>,
) -> Result<(), NoMemory>
    requires { names.old ≡ [] }
    ensures names { OnOk result (names.new ≡ map spec.as_declared items.now) }
    ensures faults { OnOk result (faults.new ≡ faults.old ++ spec.double_names [] items.now) }
{
    for item in items {
        add_double_name(names, &item.name, faults)?;
        add_name(alloc, item, names)?;
    }
    Ok(())
}

fn add_condition_fault(
    condition: &Option<AstExpr>,
    environment: Environment<'_>,
    faults: &mut Items<TypeFault>,
) -> Result<(), NoMemory>
    ensures { OnOk result (faults.new ≡ faults.old ++ spec.condition_faults environment.entry.schema.now environment.entry.variables.now condition.now) }
{
    match condition {
        Some(condition) => add_fault(one_part(Kind::Bool, check(condition, environment)), faults),
        None => Ok(()),
    }
}

// With DISTINCT, adds the fault of an order key that is no select item's expression.
fn add_unselected(
    alloc: Global,
    selection: Selection<'_>,
    distinct: bool,
    key: &Key,
    faults: &mut Items<TypeFault>,
) -> Result<(), NoMemory>
    requires { OnTrue distinct (selection.texts.now ≡ spec.written selection.items.now) }
    ensures { OnOk result (faults.new ≡ faults.old ++ spec.not_selected distinct selection.entry.items.now key.now) }
{
    if !distinct {
        return Ok(());
    }
    if !is_selected(alloc, selection, &key.expr)? {
        faults.push(TypeFault::KeyNotSelected(key.at))?;
    }
    Ok(())
}

fn add_key_faults(
    setting: Setting<'_>,
    columns: Columns<'_>,
    selection: Selection<'_>,
    key: &Key,
    faults: &mut Items<TypeFault>,
) -> Result<(), NoMemory>
    requires names { columns.names.now ≡ map spec.as_declared columns.items.now }
    requires same { selection.items.now ≡ columns.items.now }
    requires texts { OnTrue setting.distinct (selection.texts.now ≡ spec.written selection.items.now) }
    ensures { OnOk result (faults.new ≡ faults.old ++ spec.key_faults setting.entry.environment.schema.now setting.entry.environment.variables.now setting.entry.distinct columns.entry.items.now key.now) }
{
    match item_of(columns, &key.expr) {
        Some(_) => Ok(()),
        None => {
            add_fault(check(&key.expr, setting.environment).kind, faults)?;
            add_unselected(setting.alloc, selection, setting.distinct, key, faults)
        }
    }
}

fn add_all_key_faults(
    setting: Setting<'_>,
    columns: Columns<'_>,
    selection: Selection<'_>,
    keys: &[Key],
    faults: &mut Items<TypeFault>,
) -> Result<(), NoMemory>
    requires names { columns.names.now ≡ map spec.as_declared columns.items.now }
    requires same { selection.items.now ≡ columns.items.now }
    requires texts { OnTrue setting.distinct (selection.texts.now ≡ spec.written selection.items.now) }
    ensures { OnOk result (faults.new ≡ faults.old ++ flat_map (spec.key_faults setting.entry.environment.schema.now setting.entry.environment.variables.now setting.entry.distinct columns.entry.items.now) keys.now) }
{
    for key in keys {
        add_key_faults(setting, columns, selection, key, faults)?;
    }
    Ok(())
}

// With DISTINCT, adds what is written of the items.
fn add_written_if(
    alloc: Global,
    distinct: bool,
    items: &[Item],
    texts: &mut Texts,
    first: &mut Items<usize>,
) -> Result<(), NoMemory>
    requires { texts.old ≡ [] }
    ensures { OnOk result (OnTrue distinct (texts.new ≡ spec.written items.now)) }
{
    if distinct {
        add_all_written(alloc, items, texts, first)
    } else {
        Ok(())
    }
}

// Adds the faults of the order keys.
fn add_order_faults(
    setting: Setting<'_>,
    columns: Columns<'_>,
    keys: &[Key],
    texts: &mut Texts,
    first: &mut Items<usize>,
    faults: &mut Items<TypeFault>,
) -> Result<(), NoMemory>
    requires names { columns.names.now ≡ map spec.as_declared columns.items.now }
    requires texts { texts.old ≡ [] }
    ensures { OnOk result (faults.new ≡ faults.old ++ flat_map (spec.key_faults setting.entry.environment.schema.now setting.entry.environment.variables.now setting.entry.distinct columns.entry.items.now) keys.now) }
{
    let items = columns.items;
    add_written_if(setting.alloc, setting.distinct, items, texts, first)?;
    let selection = Selection {
        items,
        texts,
        first: first.as_slice(),
    };
    add_all_key_faults(setting, columns, selection, keys, faults)
}

// Adds the faults that the expressions have, and what items are looked up by.
fn add_faults_and_index(
    setting: Setting<'_>,
    ast: &Ast,
    names: &mut Declarations,
    texts: &mut Texts,
    first: &mut Items<usize>,
    faults: &mut Items<TypeFault>,
) -> Result<(), NoMemory>
    requires names { names.old ≡ [] }
    requires texts { texts.old ≡ [] }
    requires distinct { setting.distinct ≡ ast.now.distinct }
    ensures { OnOk result (faults.new ≡ faults.old ++ spec.expression_faults setting.entry.environment.schema.now setting.entry.environment.variables.now ast.now) }
{
    let items = ast.items.as_slice();
    add_item_faults(items, setting.environment, faults)?;
    add_double_names(setting.alloc, items, names, faults)?;
    add_condition_fault(&ast.condition, setting.environment, faults)?;
    let columns = Columns { items, names };
    add_order_faults(setting, columns, ast.keys.as_slice(), texts, first, faults)
}

// Adds the faults that the expressions have.
fn add_expression_faults(
    alloc: Global,
    ast: &Ast,
    environment: Environment<'_>,
    faults: &mut Items<TypeFault>,
) -> Result<(), NoMemory>
    ensures { OnOk result (faults.new ≡ faults.old ++ spec.expression_faults environment.entry.schema.now environment.entry.variables.now ast.now) }
{
    let setting = Setting {
        alloc,
        environment,
        distinct: ast.distinct,
    };
    let mut names = Declarations::new(alloc);
    let mut texts = Texts::new(alloc);
    let mut first = Items::new(alloc);
    add_faults_and_index(setting, ast, &mut names, &mut texts, &mut first, faults)
}

fn faults_of(
    alloc: Global,
    ast: &Ast,
    scope: &Scope,
    schema: &Schema,
) -> Result<Items<TypeFault>, NoMemory>
    ensures { IfOk result (λ faults. faults ≡ spec.faults_of schema.now ast.now scope.now) }
{
    let environment = Environment {
        variables: &scope.variables,
        schema,
    };
    let mut faults = Items::from_slice(alloc, scope.faults.as_slice())?;
    add_disconnected(alloc, scope, &mut faults)?;
    add_expression_faults(alloc, ast, environment, &mut faults)?;
    Ok(faults)
}

/// The first fault of a query.
pub fn first_fault(
    alloc: Global,
    ast: &Ast,
    scope: &Scope,
    schema: &Schema,
) -> Result<Option<TypeFault>, NoMemory>
    ensures { IfOk result (λ first. first ≡ spec.first_fault schema.now ast.now scope.now) }
{
    let faults = faults_of(alloc, ast, scope, schema)?;
    Ok(first_of(faults.as_slice()))
}
