//! The texts of literals.
ghost use Rattle.std.specs.Prelude.{◌≡◌, ◌≤◌, ◌<◌, ◌+◌, ◌-◌, ◌^◌, OnOk, flat_map, fold, length};
ghost use Rattle.value_text.specs.Texts.{Kept, with_text};
ghost use Rattle.pgql_tree.specs.Literals.{condition_literals, literals, query_literals};

use adfs_base::NoMemory;
use pgql_tree::{Ast, AstExpr, Item, Key};
use value_text::Texts;

// Adds the texts of an expression's text literals.
fn add_literals(expr: &AstExpr, texts: &mut Texts) -> Result<(), NoMemory>
    requires { length texts.old + length (literals expr.now) < 2 ^ 32 - 1 }
    ensures ok { OnOk result (texts.new ≡ fold with_text texts.old (literals expr.now)) }
    ensures kept { Kept texts.old texts.new }
    ensures room { length texts.new ≤ length texts.old + length (literals expr.now) }
{
    match expr {
        AstExpr::Text { content, .. } => {
            texts.add(content.as_slice())?;
            Ok(())
        }
        AstExpr::Not { inside, .. } => add_literals(inside.get(), texts),
        AstExpr::Neg { inside, .. } => add_literals(inside.get(), texts),
        AstExpr::IsNull { inside, .. } => add_literals(inside.get(), texts),
        AstExpr::Binary { left, right, .. } => {
            add_literals(left.get(), texts)?;
            add_literals(right.get(), texts)
        }
        AstExpr::Int { .. } => Ok(()),
        AstExpr::Date { .. } => Ok(()),
        AstExpr::Bool { .. } => Ok(()),
        AstExpr::Name { .. } => Ok(()),
        AstExpr::Property { .. } => Ok(()),
        AstExpr::Id { .. } => Ok(()),
        AstExpr::Label { .. } => Ok(()),
    }
}

fn add_item_literals(items: &[Item], texts: &mut Texts) -> Result<(), NoMemory>
    requires { length texts.old + length (flat_map (λ item. literals item.expr) items.now) < 2 ^ 32 - 1 }
    ensures ok { OnOk result (texts.new ≡ fold with_text texts.old (flat_map (λ item. literals item.expr) items.now)) }
    ensures kept { Kept texts.old texts.new }
    ensures room { length texts.new ≤ length texts.old + length (flat_map (λ item. literals item.expr) items.now) }
{
    for item in items {
        add_literals(&item.expr, texts)?;
    }
    Ok(())
}

fn add_key_literals(keys: &[Key], texts: &mut Texts) -> Result<(), NoMemory>
    requires { length texts.old + length (flat_map (λ key. literals key.expr) keys.now) < 2 ^ 32 - 1 }
    ensures ok { OnOk result (texts.new ≡ fold with_text texts.old (flat_map (λ key. literals key.expr) keys.now)) }
    ensures kept { Kept texts.old texts.new }
{
    for key in keys {
        add_literals(&key.expr, texts)?;
    }
    Ok(())
}

fn add_condition_literals(condition: &Option<AstExpr>, texts: &mut Texts) -> Result<(), NoMemory>
    requires { length texts.old + length (condition_literals condition.now) < 2 ^ 32 - 1 }
    ensures ok { OnOk result (texts.new ≡ fold with_text texts.old (condition_literals condition.now)) }
    ensures kept { Kept texts.old texts.new }
    ensures room { length texts.new ≤ length texts.old + length (condition_literals condition.now) }
{
    match condition {
        Some(condition) => add_literals(condition, texts),
        None => Ok(()),
    }
}

/// Adds the texts of all text literals.
pub fn add_all_literals(ast: &Ast, texts: &mut Texts) -> Result<(), NoMemory>
    requires { length texts.old + length (query_literals ast.now) < 2 ^ 32 - 1 }
    ensures ok { OnOk result (texts.new ≡ fold with_text texts.old (query_literals ast.now)) }
    ensures kept { Kept texts.old texts.new }
{
    add_item_literals(ast.items.as_slice(), texts)?;
    add_condition_literals(&ast.condition, texts)?;
    add_key_literals(ast.keys.as_slice(), texts)
}
