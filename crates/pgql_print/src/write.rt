//! How queries are written.

ghost use Rattle.std.specs.Prelude.{◌≡◌, ◌++◌, ◌∷◌, [], flat_map, codes, OnOk, IfOk};
ghost use Rattle.pgql_print.specs.Printing as spec;
ghost use Rattle.pgql_tree.specs.declared.level.Level.TheVariants.{Or};

use crate::write_expr::{put, put_expr, put_name};
use crate::written::{Written, put_between, put_each};
use adfs_base::{Name, NoMemory};
use itoa::Buffer;
use pgql_tree::{Ast, AstExpr, EdgePat, Item, Key, Level, Path, Placed, VertexPat};
use sqlite_items::Boxed;
use std::alloc::{AllocError, Global};

impl Written for Name {
    ghost text = { λ name. name };

    fn put(&self, out: &mut Vec<u8>) -> Result<(), AllocError> {
        put_name(out, self)
    }
}

fn put_labels(out: &mut Vec<u8>, labels: &[Name]) -> Result<(), AllocError>
    ensures { OnOk result (out.new.items ≡ out.old.items ++ spec.labels_or_none labels.now) }
{
    if labels.is_empty() {
        return Ok(());
    }
    put(out, b":")?;
    put_between(out, b"|", labels)?;
    Ok(())
}

fn put_name_or_none(out: &mut Vec<u8>, name: &Option<Boxed<Placed>>) -> Result<(), AllocError>
    ensures { OnOk result (out.new.items ≡ out.old.items ++ spec.name_or_none name.now) }
{
    match name {
        None => Ok(()),
        Some(placed) => put_name(out, &placed.get().name),
    }
}

/// What stands inside a vertex or edge pattern.
fn put_spec(
    out: &mut Vec<u8>,
    name: &Option<Boxed<Placed>>,
    labels: &[Name],
) -> Result<(), AllocError>
    ensures { OnOk result (out.new.items ≡ out.old.items ++ spec.spec_text name.now labels.now) }
{
    put_name_or_none(out, name)?;
    put_labels(out, labels)?;
    Ok(())
}

#[tactic(auto, unfolding(crate::specs::Printing::vertex_text))]
fn put_vertex(out: &mut Vec<u8>, vertex: &VertexPat) -> Result<(), AllocError>
    ensures { OnOk result (out.new.items ≡ out.old.items ++ spec.vertex_text vertex.now) }
{
    put(out, b"(")?;
    put_spec(out, &vertex.name, vertex.labels.as_slice())?;
    put(out, b")")?;
    Ok(())
}

fn opens(out: bool) -> &'static [u8]
    ensures { result.now ≡ spec.opens out }
{
    if out { b"-[" } else { b"<-[" }
}

fn closes(out: bool) -> &'static [u8]
    ensures { result.now ≡ spec.closes out }
{
    if out { b"]->" } else { b"]-" }
}

fn arrow(out: bool) -> &'static [u8]
    ensures { result.now ≡ spec.arrow_text out }
{
    if out { b"->" } else { b"<-" }
}

fn is_bare(edge: &EdgePat) -> bool
    ensures { result ≡ spec.is_bare edge.now.name edge.now.labels }
{
    match edge.name {
        None => edge.labels.as_slice().is_empty(),
        Some(_) => false,
    }
}

#[tactic(auto, unfolding(crate::specs::Printing::edge_text))]
fn put_edge(out: &mut Vec<u8>, edge: &EdgePat) -> Result<(), AllocError>
    ensures { OnOk result (out.new.items ≡ out.old.items ++ spec.edge_text edge.now) }
{
    if is_bare(edge) {
        put(out, arrow(edge.out))?;
        Ok(())
    } else {
        put(out, opens(edge.out))?;
        put_spec(out, &edge.name, edge.labels.as_slice())?;
        put(out, closes(edge.out))?;
        Ok(())
    }
}

impl Written for (EdgePat, VertexPat) {
    ghost text = { spec.step_text };

    fn put(&self, out: &mut Vec<u8>) -> Result<(), AllocError> {
        put_edge(out, &self.0)?;
        put_vertex(out, &self.1)?;
        Ok(())
    }
}

impl Written for Path {
    ghost text = { spec.path_text };

    #[tactic(auto, unfolding(crate::specs::Printing::path_text))]
    fn put(&self, out: &mut Vec<u8>) -> Result<(), AllocError> {
        put_vertex(out, &self.first)?;
        put_each(out, b"", self.steps.as_slice())?;
        Ok(())
    }
}

fn put_as_name(out: &mut Vec<u8>, name: &Option<Boxed<Placed>>) -> Result<(), AllocError>
    ensures { OnOk result (out.new.items ≡ out.old.items ++ spec.as_name name.now) }
{
    match name {
        None => Ok(()),
        Some(placed) => {
            put(out, b" AS ")?;
            put_name(out, &placed.get().name)?;
            Ok(())
        }
    }
}

impl Written for Item {
    ghost text = { spec.item_text };

    #[tactic(auto, unfolding(crate::specs::Printing::item_text))]
    fn put(&self, out: &mut Vec<u8>) -> Result<(), AllocError> {
        put_expr(out, &self.expr, Level::Or)?;
        put_as_name(out, &self.name)?;
        Ok(())
    }
}

fn direction(down: bool) -> &'static [u8]
    ensures { result.now ≡ spec.direction down }
{
    if down { b" DESC" } else { b"" }
}

impl Written for Key {
    ghost text = { spec.key_text };

    #[tactic(auto, unfolding(crate::specs::Printing::key_text))]
    fn put(&self, out: &mut Vec<u8>) -> Result<(), AllocError> {
        put_expr(out, &self.expr, Level::Or)?;
        put(out, direction(self.down))?;
        Ok(())
    }
}

fn put_keys(out: &mut Vec<u8>, keys: &[Key]) -> Result<(), AllocError>
    ensures { OnOk result (out.new.items ≡ out.old.items ++ spec.keys_text keys.now) }
{
    if keys.is_empty() {
        return Ok(());
    }
    put(out, b" ORDER BY ")?;
    put_between(out, b", ", keys)?;
    Ok(())
}

fn put_condition(out: &mut Vec<u8>, condition: &Option<AstExpr>) -> Result<(), AllocError>
    ensures { OnOk result (out.new.items ≡ out.old.items ++ spec.condition_text condition.now) }
{
    match condition {
        None => Ok(()),
        Some(x) => {
            put(out, b" WHERE ")?;
            put_expr(out, x, Level::Or)?;
            Ok(())
        }
    }
}

fn put_limit(out: &mut Vec<u8>, limit: Option<u64>) -> Result<(), AllocError>
    ensures { OnOk result (out.new.items ≡ out.old.items ++ spec.limit_text limit) }
{
    match limit {
        None => Ok(()),
        Some(number) => {
            let mut buffer = Buffer::new();
            put(out, b" LIMIT ")?;
            put(out, buffer.format(number).as_bytes())?;
            Ok(())
        }
    }
}

fn select_word(distinct: bool) -> &'static [u8]
    ensures { result.now ≡ spec.select_word distinct }
{
    if distinct {
        b"SELECT DISTINCT "
    } else {
        b"SELECT "
    }
}

fn put_selection(out: &mut Vec<u8>, ast: &Ast) -> Result<(), AllocError>
    ensures { OnOk result (out.new.items ≡ out.old.items ++ spec.selection_text ast.now) }
{
    put(out, select_word(ast.distinct))?;
    put_between(out, b", ", ast.items.as_slice())?;
    Ok(())
}

fn put_pattern(out: &mut Vec<u8>, ast: &Ast) -> Result<(), AllocError>
    ensures { OnOk result (out.new.items ≡ out.old.items ++ spec.pattern_text ast.now) }
{
    put(out, b" MATCH ")?;
    put_between(out, b", ", ast.paths.as_slice())?;
    Ok(())
}

fn put_tail(out: &mut Vec<u8>, ast: &Ast) -> Result<(), AllocError>
    ensures { OnOk result (out.new.items ≡ out.old.items ++ spec.tail_text ast.now) }
{
    put_condition(out, &ast.condition)?;
    put_keys(out, ast.keys.as_slice())?;
    put_limit(out, ast.limit)?;
    Ok(())
}

#[tactic(auto, unfolding(crate::specs::Printing::query_text))]
fn put_query(out: &mut Vec<u8>, ast: &Ast) -> Result<(), AllocError>
    ensures { OnOk result (out.new.items ≡ out.old.items ++ spec.query_text ast.now) }
{
    put_selection(out, ast)?;
    put_pattern(out, ast)?;
    put_tail(out, ast)?;
    Ok(())
}

/// The text of a query.
///
/// One space stands between two tokens; none stands inside `a.name`, `id(a)` and patterns, after an opening
/// parenthesis and a sign minus, and before a closing parenthesis and a comma. Keywords are in capitals.
/// ASC isn't written, and an edge without name and labels is an arrow. An operand stands in parentheses only
/// where it would else be read otherwise.
pub fn print(alloc: Global, ast: &Ast) -> Result<Vec<u8>, NoMemory>
    ensures { IfOk result (λ text. text.items ≡ spec.query_text ast.now) }
{
    let mut out = Vec::new(alloc);
    put_query(&mut out, ast)?;
    Ok(out)
}

/// The text of an expression, as `print` writes it.
pub fn print_expr(alloc: Global, expr: &AstExpr) -> Result<Vec<u8>, NoMemory>
    ensures { IfOk result (λ text. text.items ≡ spec.spelled expr.now Or) }
{
    let mut out = Vec::new(alloc);
    put_expr(&mut out, expr, Level::Or)?;
    Ok(out)
}
