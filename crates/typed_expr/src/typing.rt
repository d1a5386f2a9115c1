//! What queries mean.
ghost use Rattle.std.specs.Prelude.{All, ◌≡◌, ◌<◌, ◌+◌, ◌-◌, ◌^◌, IfOk, None, Ok, length};
ghost use Rattle.value_text.specs.Texts.{Kept};
ghost use Rattle.typed_expr.specs.Captured.{HaveKinds};
ghost use Rattle.typed_expr.specs.Typed as spec;
ghost use Rattle.typed_query.specs.Parts.{HasValidConstants};
ghost use Rattle.typed_query.specs.WellFormed.{IsWellFormed, expressions};

use crate::build::query_of;
use crate::faults::first_fault;
use crate::query::Query;
use adfs_base::NoMemory;
use graph_tables::Schema;
use literal_texts::add_all_literals;
use pattern_scope::fault::TypeFault;
use pattern_scope::scope::{Scope, scope_of};
use pgql_tree::Ast;
use sqlite_items::Items;
use std::alloc::Global;
use value_text::Texts;

// The query that a tree without faults means, with the texts of its literals added to `texts`.
fn meaning_of(
    alloc: Global,
    ast: &mut Ast,
    scope: &Scope,
    schema: &Schema,
    texts: &mut Texts,
) -> Result<Query, NoMemory>
    requires { length texts.old + length (spec.all_literals ast.old) < 2 ^ 32 - 1 }
    ensures ok { IfOk result (λ query. spec.typed_by schema.now texts.old ast.old scope.now None ≡ Ok (query, texts.new)) }
    ensures kept { Kept texts.old texts.new }
{
    add_all_literals(ast, texts)?;
    query_of(alloc, ast, scope, schema, texts)
}

// The query that a tree means whose patterns declare this, or its first fault.
fn typed_in(
    alloc: Global,
    ast: &mut Ast,
    scope: &Scope,
    schema: &Schema,
    texts: &mut Texts,
) -> Result<Query, TypeFault>
    requires { length texts.old + length (spec.all_literals ast.old) < 2 ^ 32 - 1 }
    ensures { spec.Gives texts.old texts.new result (spec.typed_by schema.now texts.old ast.old scope.now (spec.first_fault schema.now ast.old scope.now)) }
{
    match first_fault(alloc, ast, scope, schema)? {
        Some(fault) => Err(fault),
        None => {
            let query = meaning_of(alloc, ast, scope, schema, texts)?;
            Ok(query)
        }
    }
}

// The same of its patterns, which are let go of once it is known what they declare.
fn typed_by_paths(
    alloc: Global,
    ast: &mut Ast,
    schema: &Schema,
    texts: &mut Texts,
) -> Result<Query, TypeFault>
    requires { length texts.old + length (spec.all_literals ast.old) < 2 ^ 32 - 1 }
    ensures { spec.Gives texts.old texts.new result (spec.typed schema.now texts.old ast.old) }
{
    let scope = scope_of(alloc, ast.paths.as_slice())?;
    ast.paths = Items::new(alloc);
    typed_in(alloc, ast, &scope, schema, texts)
}

/// The query that a tree means, with the texts of its literals added to `texts`. The tree's memory is let go of on the
/// way, so that a query takes no more than the greater of the two.
///
/// The query is well formed (`IsWellFormed`) where the tree has a path, as each tree of the parser has. Its
/// constants are valid under the texts, so that `value` may take each of its expressions. Each capture of a property
/// has the kind that the schema gives that property (`HaveKinds`).
///
/// # Errors
///
/// The fault of the least place, and of several there the one of the least number: see `TypeFault`. Then `texts`
/// is as before. After `NoMemory` it may have further texts, and all earlier ones keep their numbers.
pub fn type_query(
    alloc: Global,
    ast: Ast,
    schema: &Schema,
    texts: &mut Texts,
) -> Result<Query, TypeFault>
    requires few { length texts.old + length (spec.all_literals ast) < 2 ^ 32 - 1 }
    ensures exact { spec.Gives texts.old texts.new result (spec.typed schema.now texts.old ast) }
    ensures well_formed { 0 < length ast.paths → IfOk result IsWellFormed }
    ensures valid { IfOk result (λ query. All (HasValidConstants texts.new) (expressions query)) }
    ensures kinds { IfOk result (HaveKinds schema.now) }
{
    let mut ast = ast;
    typed_by_paths(alloc, &mut ast, schema, texts)
}
