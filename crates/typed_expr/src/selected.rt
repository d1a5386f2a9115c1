//! Which expressions are those of select items.
//!
//! Expressions that are the same are written alike, so an expression that no item is written as is no item's. One
//! that is written as an item is compared with it.
ghost use Rattle.std.specs.Prelude.{◌≡◌, IfOk, OnOk, [], true};
ghost use Rattle.std.specs.Bool.{OnTrue};
ghost use Rattle.std.specs.List.{list_any};
ghost use Rattle.value_text.specs.Texts.{with_text};
ghost use Rattle.typed_expr.specs.Printed.{printed};
ghost use Rattle.typed_expr.specs.Same as same;
ghost use Rattle.typed_expr.specs.Typed as spec;

use adfs_base::NoMemory;
use pgql_print::print_expr;
use pgql_tree::{AstExpr, Item, same_expr};
use sqlite_items::{Items, at};
use std::alloc::Global;
use value_text::Texts;

/// The select items, with the distinct texts that are written of them, and for each the first item's place.
#[derive(Clone, Copy)]
pub struct Selection<'a> {
    pub items: &'a [Item],
    pub texts: &'a Texts,
    pub first: &'a [usize],
}

fn add_text(
    text: &[u8],
    place: usize,
    texts: &mut Texts,
    first: &mut Items<usize>,
) -> Result<(), NoMemory>
    ensures { OnOk result (texts.new ≡ with_text texts.old text.now) }
{
    let count = texts.len();
    if count == u32::MAX {
        return Err(NoMemory);
    }
    let number = texts.add(text)?;
    if number == count {
        first.push(place)?;
    }
    Ok(())
}

fn add_written(
    alloc: Global,
    expr: &AstExpr,
    place: usize,
    texts: &mut Texts,
    first: &mut Items<usize>,
) -> Result<(), NoMemory>
    ensures { OnOk result (texts.new ≡ with_text texts.old (printed expr.now)) }
{
    let text = print_expr(alloc, expr)?;
    add_text(text.as_slice(), place, texts, first)
}

/// Adds what is written of the items.
pub fn add_all_written(
    alloc: Global,
    items: &[Item],
    texts: &mut Texts,
    first: &mut Items<usize>,
) -> Result<(), NoMemory>
    requires { texts.old ≡ [] }
    ensures { OnOk result (texts.new ≡ spec.written items.now) }
{
    for (place, item) in items.iter().enumerate() {
        add_written(alloc, &item.expr, place, texts, first)?;
    }
    Ok(())
}

fn is_same(a: &AstExpr, b: &AstExpr) -> bool
    ensures { result ≡ same.same a.now b.now }
{
    same_expr(a, b)
}

// Whether the expression is that of some item.
fn is_any(items: &[Item], expr: &AstExpr) -> bool
    ensures { result ≡ list_any (λ item. same.same expr.now item.expr) items.now }
{
    for item in items {
        if is_same(expr, &item.expr) {
            return true;
        }
    }
    false
}

// Whether the expression is that of the item in this place.
fn is_item(items: &[Item], place: usize, expr: &AstExpr) -> bool
    ensures { OnTrue result (list_any (λ item. same.same expr.now item.expr) items.now ≡ true) }
{
    match at(items, place) {
        Some(item) => is_same(expr, &item.expr),
        None => false,
    }
}

// The same of the first item that is written so.
fn is_first(selection: Selection<'_>, number: u32, expr: &AstExpr) -> bool
    ensures { OnTrue result (list_any (λ item. same.same expr.now item.expr) selection.entry.items.now ≡ true) }
{
    match at(selection.first, number as usize) {
        Some(place) => is_item(selection.items, *place, expr),
        None => false,
    }
}

// Whether an expression that is written so is that of some item.
fn is_among(selection: Selection<'_>, text: &[u8], expr: &AstExpr) -> bool
    requires texts { selection.texts.now ≡ spec.written selection.items.now }
    requires text { text.now ≡ printed expr.now }
    ensures { result ≡ list_any (λ item. same.same expr.now item.expr) selection.entry.items.now }
{
    match selection.texts.find(text) {
        None => false,
        Some(number) => {
            if is_first(selection, number, expr) {
                true
            } else {
                is_any(selection.items, expr)
            }
        }
    }
}

/// Whether the expression is that of some item.
pub fn is_selected(
    alloc: Global,
    selection: Selection<'_>,
    expr: &AstExpr,
) -> Result<bool, NoMemory>
    requires { selection.texts.now ≡ spec.written selection.items.now }
    ensures { IfOk result (λ is. is ≡ list_any (λ item. same.same expr.now item.expr) selection.entry.items.now) }
{
    let text = print_expr(alloc, expr)?;
    Ok(is_among(selection, text.as_slice(), expr))
}
