//! How many text literals a query has.
ghost use Rattle.std.specs.Prelude.{◌≡◌, ◌-◌, ◌^◌, flat_map, length, min};
ghost use Rattle.pgql_tree.specs.Literals.{condition_literals, literals, query_literals};

use pgql_tree::{Ast, AstExpr, Item, Key};

fn count_in(expr: &AstExpr) -> u32
    ensures { result ≡ min (length (literals expr.now)) (2 ^ 32 - 1) }
{
    match expr {
        AstExpr::Text { .. } => 1,
        AstExpr::Not { inside, .. } => count_in(inside.get()),
        AstExpr::Neg { inside, .. } => count_in(inside.get()),
        AstExpr::IsNull { inside, .. } => count_in(inside.get()),
        AstExpr::Binary { left, right, .. } => count_in(left.get()).saturating_add(count_in(
            right.get(),
        )),
        AstExpr::Int { .. } => 0,
        AstExpr::Date { .. } => 0,
        AstExpr::Bool { .. } => 0,
        AstExpr::Name { .. } => 0,
        AstExpr::Property { .. } => 0,
        AstExpr::Id { .. } => 0,
        AstExpr::Label { .. } => 0,
    }
}

fn count_in_items(items: &[Item]) -> u32
    ensures { result ≡ min (length (flat_map (λ item. literals item.expr) items.now)) (2 ^ 32 - 1) }
{
    let mut count: u32 = 0;
    for item in items {
        count = count.saturating_add(count_in(&item.expr));
    }
    count
}

fn count_in_keys(keys: &[Key]) -> u32
    ensures { result ≡ min (length (flat_map (λ key. literals key.expr) keys.now)) (2 ^ 32 - 1) }
{
    let mut count: u32 = 0;
    for key in keys {
        count = count.saturating_add(count_in(&key.expr));
    }
    count
}

fn count_in_condition(condition: &Option<AstExpr>) -> u32
    ensures { result ≡ min (length (condition_literals condition.now)) (2 ^ 32 - 1) }
{
    match condition {
        Some(condition) => count_in(condition),
        None => 0,
    }
}

/// How many text literals a tree has, or 2^32 - 1 if it has more.
pub fn literal_count(ast: &Ast) -> u32
    ensures { result ≡ min (length (query_literals ast.now)) (2 ^ 32 - 1) }
{
    let selected = count_in_items(ast.items.as_slice());
    let tested = count_in_condition(&ast.condition);
    let keys = count_in_keys(ast.keys.as_slice());
    selected.saturating_add(tested).saturating_add(keys)
}
