//! How an expression is written as the name of a column.
ghost use Rattle.std.specs.Prelude.{◌≡◌, IfOk};
ghost use Rattle.typed_expr.specs.Printed as spec;

use adfs_base::{Name, NoMemory};
use pgql_print::print_expr;
use pgql_tree::AstExpr;
use std::alloc::Global;

/// The text of an expression. A tree whose texts aren't UTF-8 has none, and is answered as out of memory; the
/// parser gives no such tree.
pub fn printed(alloc: Global, expr: &AstExpr) -> Result<Name, NoMemory>
    ensures { IfOk result (λ name. name ≡ spec.printed expr.now) }
{
    let text = print_expr(alloc, expr)?;
    match std::str::from_utf8(text.as_slice()) {
        Ok(text) => Name::new(alloc, text),
        Err(_) => Err(NoMemory),
    }
}
