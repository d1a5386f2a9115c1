//! The query that a tree without faults means.
ghost use Rattle.std.specs.Prelude.{◌≡◌, ◌<◌, ◌+◌, ◌++◌, ◌∷◌, [], IfOk, OnOk, drop, length, map};
ghost use Rattle.typed_expr.specs.Meaning as meaning;
ghost use Rattle.typed_expr.specs.Typed as spec;

use crate::capture_set::Captures;
use crate::captures::add_captures;
use crate::environment::Environment;
use crate::expr::Expr;
use crate::items::{Columns, add_names, item_of};
use crate::meaning::{Scene, add_conjuncts, meant};
use crate::printed::printed;
use crate::query::{EdgeJoin, Query, Variable};
use adfs_base::{Name, NoMemory};
use graph_tables::Schema;
use pattern_scope::declarations::Declarations;
use pattern_scope::scope::{Declared, Scope, copied, copies};
use pgql_tree::{Ast, AstExpr, Item, Key};
use sqlite_items::Items;
use std::alloc::Global;
use value_text::Texts;

fn add_label_list(
    alloc: Global,
    list: &Items<Name>,
    lists: &mut Items<Items<Name>>,
) -> Result<(), NoMemory>
    ensures { OnOk result (lists.new ≡ lists.old ++ list.now ∷ []) }
{
    let copy = copies(alloc, list.as_slice())?;
    lists.push(copy)?;
    Ok(())
}

// The label lists of a variable.
fn labels_of(
    alloc: Global,
    number: usize,
    labels: &[(usize, Items<Name>)],
    lists: &mut Items<Items<Name>>,
) -> Result<(), NoMemory>
    ensures { OnOk result (lists.new ≡ lists.old ++ spec.labels_of number labels.now) }
{
    for (of, list) in labels {
        if *of == number {
            add_label_list(alloc, list, lists)?;
        }
    }
    Ok(())
}

// The name of a variable, if it has one, as a name of its own.
fn name_in(alloc: Global, declared: &Declared) -> Result<Option<Name>, NoMemory>
    ensures { IfOk result (λ name. name ≡ declared.now.name) }
{
    match &declared.name {
        Some(name) => Ok(Some(copied(alloc, name.get())?)),
        None => Ok(None),
    }
}

// A variable without its label lists.
fn unlabelled(alloc: Global, declared: &Declared) -> Result<Variable, NoMemory>
    ensures { IfOk result (λ variable. variable ≡ record { name = declared.now.name; edge = declared.now.edge; labels = [] }) }
{
    let name = name_in(alloc, declared)?;
    Ok(Variable {
        name,
        edge: declared.edge,
        labels: Items::new(alloc),
    })
}

fn add_variable(
    alloc: Global,
    number: usize,
    declared: &Declared,
    labels: &[(usize, Items<Name>)],
    variables: &mut Items<Variable>,
) -> Result<(), NoMemory>
    ensures { OnOk result (variables.new ≡ variables.old ++ record { name = declared.now.name; edge = declared.now.edge; labels = spec.labels_of number labels.now } ∷ []) }
{
    let mut variable = unlabelled(alloc, declared)?;
    labels_of(alloc, number, labels, &mut variable.labels)?;
    variables.push(variable)?;
    Ok(())
}

fn add_variables(
    alloc: Global,
    scope: &Scope,
    variables: &mut Items<Variable>,
) -> Result<(), NoMemory>
    ensures { OnOk result (variables.new ≡ variables.old ++ spec.variables_from 0 scope.now.labels scope.now.variables) }
{
    let mut number: usize = 0;
    let mut rest = scope.variables.as_slice();
    while let [declared, more @ ..] = rest {
        add_variable(alloc, number, declared, scope.labels.as_slice(), variables)?;
        number += 1;
        rest = more;
    }
    Ok(())
}

fn column_of(alloc: Global, item: &Item) -> Result<Name, NoMemory>
    ensures { IfOk result (λ name. name ≡ spec.column_of item.now) }
{
    match &item.name {
        Some(placed) => copied(alloc, &placed.get().name),
        None => printed(alloc, &item.expr),
    }
}

fn add_condition(
    condition: &Option<AstExpr>,
    scene: Scene<'_>,
    parts: &mut Items<Expr>,
) -> Result<(), NoMemory>
    ensures { OnOk result (parts.new ≡ parts.old ++ spec.conjuncts_of (meaning.meant scene.entry.environment.schema.now scene.entry.environment.variables.now scene.entry.captures.now scene.entry.texts.now) condition.now) }
{
    if let Some(condition) = condition {
        let condition = meant(condition, scene)?;
        add_conjuncts(condition, parts)?;
    }
    Ok(())
}

fn add_column(
    item: &Item,
    scene: Scene<'_>,
    select: &mut Items<(Expr, Name)>,
) -> Result<(), NoMemory>
    ensures { OnOk result (select.new ≡ select.old ++ (meaning.meant scene.entry.environment.schema.now scene.entry.environment.variables.now scene.entry.captures.now scene.entry.texts.now item.now.expr, spec.column_of item.now) ∷ []) }
{
    let name = column_of(scene.alloc, item)?;
    let expr = meant(&item.expr, scene)?;
    select.push((expr, name))?;
    Ok(())
}

// An item of nothing that takes memory.
fn spent() -> Item {
    Item {
        expr: AstExpr::Bool {
            truth: false,
            at: 0,
        },
        name: None,
        at: 0,
    }
}

// Adds the column of the first of these items.
fn add_first(
    items: &[Item],
    scene: Scene<'_>,
    select: &mut Items<(Expr, Name)>,
) -> Result<(), NoMemory>
    ensures { let means = meaning.meant scene.entry.environment.schema.now scene.entry.environment.variables.now scene.entry.captures.now scene.entry.texts.now in
        OnOk result (select.new ++ spec.select_of means (drop 1 items.now) ≡ select.old ++ spec.select_of means items.now) }
{
    match items {
        [item, ..] => add_column(item, scene, select),
        [] => Ok(()),
    }
}

// Adds the column of the item in this place, and lets the item's memory go.
fn add_column_at(
    items: &mut Items<Item>,
    place: usize,
    scene: Scene<'_>,
    select: &mut Items<(Expr, Name)>,
) -> Result<(), NoMemory>
    requires { place < length items.old }
    ensures column { let means = meaning.meant scene.entry.environment.schema.now scene.entry.environment.variables.now scene.entry.captures.now scene.entry.texts.now in
        OnOk result (select.new ++ spec.select_of means (drop (place + 1) items.old) ≡ select.old ++ spec.select_of means (drop place items.old)) }
    ensures rest { drop (place + 1) items.new ≡ drop (place + 1) items.old }
    ensures as_many { length items.new ≡ length items.old }
{
    add_first(&items.as_slice()[place..], scene, select)?;
    items.set(place, spent());
    Ok(())
}

// Adds the columns of the items, each of which is let go of as soon as it has its column: so memory is taken for one
// tree of them, and not for two.
fn add_columns(
    items: &mut Items<Item>,
    scene: Scene<'_>,
    select: &mut Items<(Expr, Name)>,
) -> Result<(), NoMemory>
    ensures { OnOk result (select.new ≡ select.old ++ spec.select_of (meaning.meant scene.entry.environment.schema.now scene.entry.environment.variables.now scene.entry.captures.now scene.entry.texts.now) items.old) }
{
    for place in 0..items.len() {
        add_column_at(items, place, scene, select)?;
    }
    Ok(())
}

// The expression that an order key stands for.
fn key_expr(columns: Columns<'_>, expr: &AstExpr, scene: Scene<'_>) -> Result<Expr, NoMemory>
    requires { columns.names.now ≡ map spec.as_declared columns.items.now }
    ensures { IfOk result (λ found. found ≡ meaning.meant scene.entry.environment.schema.now scene.entry.environment.variables.now scene.entry.captures.now scene.entry.texts.now (spec.key_expr columns.entry.items.now expr.now)) }
{
    match item_of(columns, expr) {
        Some(item) => meant(&item.expr, scene),
        None => meant(expr, scene),
    }
}

fn add_key(
    columns: Columns<'_>,
    key: &Key,
    scene: Scene<'_>,
    keys: &mut Items<(Expr, bool)>,
) -> Result<(), NoMemory>
    requires { columns.names.now ≡ map spec.as_declared columns.items.now }
    ensures { OnOk result (keys.new ≡ keys.old ++ (meaning.meant scene.entry.environment.schema.now scene.entry.environment.variables.now scene.entry.captures.now scene.entry.texts.now (spec.key_expr columns.entry.items.now key.now.expr), key.now.down) ∷ []) }
{
    let expr = key_expr(columns, &key.expr, scene)?;
    keys.push((expr, key.down))?;
    Ok(())
}

fn add_keys(
    columns: Columns<'_>,
    keys: &[Key],
    scene: Scene<'_>,
    found: &mut Items<(Expr, bool)>,
) -> Result<(), NoMemory>
    requires { columns.names.now ≡ map spec.as_declared columns.items.now }
    ensures { OnOk result (found.new ≡ found.old ++ spec.keys_of (meaning.meant scene.entry.environment.schema.now scene.entry.environment.variables.now scene.entry.captures.now scene.entry.texts.now) columns.entry.items.now keys.now) }
{
    for key in keys {
        add_key(columns, key, scene, found)?;
    }
    Ok(())
}

// The same, with the AS names of the items.
fn add_keys_by_names(
    items: &[Item],
    keys: &[Key],
    scene: Scene<'_>,
    names: &mut Declarations,
    found: &mut Items<(Expr, bool)>,
) -> Result<(), NoMemory>
    requires { names.old ≡ [] }
    ensures { OnOk result (found.new ≡ found.old ++ spec.keys_of (meaning.meant scene.entry.environment.schema.now scene.entry.environment.variables.now scene.entry.captures.now scene.entry.texts.now) items.now keys.now) }
{
    add_names(scene.alloc, items, names)?;
    let columns = Columns { items, names };
    add_keys(columns, keys, scene, found)
}

fn add_order(
    items: &[Item],
    keys: &[Key],
    scene: Scene<'_>,
    found: &mut Items<(Expr, bool)>,
) -> Result<(), NoMemory>
    ensures { OnOk result (found.new ≡ found.old ++ spec.keys_of (meaning.meant scene.entry.environment.schema.now scene.entry.environment.variables.now scene.entry.captures.now scene.entry.texts.now) items.now keys.now) }
{
    let mut names = Declarations::new(scene.alloc);
    add_keys_by_names(items, keys, scene, &mut names, found)
}

// No entries, with room for so many. A list of one entry for each item or key takes its memory at once, since one that
// grows holds its old entries beside the new ones.
fn with_room<T>(alloc: Global, count: usize) -> Result<Items<T>, NoMemory>
    ensures { IfOk result (λ list. list ≡ []) }
{
    Ok(Items::from_vec(Vec::with_capacity(alloc, count)?))
}

// A query of which nothing is known but DISTINCT and LIMIT.
fn bare_query(alloc: Global, ast: &Ast) -> Query
    ensures { result ≡ record { variables = []; edges = []; captures = []; conjuncts = []; select = []; keys = []; distinct = ast.now.distinct; limit = ast.now.limit } }
{
    Query {
        variables: Items::new(alloc),
        edges: Items::new(alloc),
        captures: Items::new(alloc),
        conjuncts: Items::new(alloc),
        select: Items::new(alloc),
        keys: Items::new(alloc),
        distinct: ast.distinct,
        limit: ast.limit,
    }
}

fn add_edges(edges: &[EdgeJoin], found: &mut Items<EdgeJoin>) -> Result<(), NoMemory>
    ensures { OnOk result (found.new ≡ found.old ++ edges.now) }
{
    for edge in edges {
        found.push(*edge)?;
    }
    Ok(())
}

// What the expressions of the tree mean. The order keys, which speak of items, come before these are let go of.
fn add_expressions(
    ast: &mut Ast,
    scene: Scene<'_>,
    conjuncts: &mut Items<Expr>,
    select: &mut Items<(Expr, Name)>,
    keys: &mut Items<(Expr, bool)>,
) -> Result<(), NoMemory>
    requires select { select.old ≡ [] }
    requires keys { keys.old ≡ [] }
    ensures { let means = meaning.meant scene.entry.environment.schema.now scene.entry.environment.variables.now scene.entry.captures.now scene.entry.texts.now in
        OnOk result ((conjuncts.new ≡ conjuncts.old ++ spec.conjuncts_of means ast.old.condition)
        × (select.new ≡ spec.select_of means ast.old.items)
        × (keys.new ≡ spec.keys_of means ast.old.items ast.old.keys)) }
{
    *keys = with_room(scene.alloc, ast.keys.len())?;
    add_order(ast.items.as_slice(), ast.keys.as_slice(), scene, keys)?;
    add_condition(&ast.condition, scene, conjuncts)?;
    *select = with_room(scene.alloc, ast.items.len())?;
    add_columns(&mut ast.items, scene, select)
}

// Fills a bare query.
fn fill(
    alloc: Global,
    ast: &mut Ast,
    scope: &Scope,
    schema: &Schema,
    texts: &Texts,
    captures: &mut Captures,
    query: &mut Query,
) -> Result<(), NoMemory>
    requires captures { captures.old ≡ [] }
    requires query { query.old ≡ record { variables = []; edges = []; captures = []; conjuncts = []; select = []; keys = []; distinct = ast.old.distinct; limit = ast.old.limit } }
    ensures { OnOk result (query.new ≡ spec.query_of schema.now ast.old scope.now texts.now) }
{
    let environment = Environment {
        variables: &scope.variables,
        schema,
    };
    add_captures(ast, environment, captures)?;
    let scene = Scene {
        alloc,
        environment,
        captures,
        texts,
    };
    add_expressions(
        ast,
        scene,
        &mut query.conjuncts,
        &mut query.select,
        &mut query.keys,
    )?;
    captures.put(&mut query.captures)?;
    add_variables(alloc, scope, &mut query.variables)?;
    add_edges(scope.edges.as_slice(), &mut query.edges)
}

/// The query that a tree without faults means, over texts that have those of its literals. Of the tree nothing is left that
/// means something.
pub fn query_of(
    alloc: Global,
    ast: &mut Ast,
    scope: &Scope,
    schema: &Schema,
    texts: &Texts,
) -> Result<Query, NoMemory>
    ensures { IfOk result (λ query. query ≡ spec.query_of schema.now ast.old scope.now texts.now) }
{
    let mut captures = Captures::new(alloc);
    let mut query = bare_query(alloc, ast);
    fill(alloc, ast, scope, schema, texts, &mut captures, &mut query)?;
    Ok(query)
}
