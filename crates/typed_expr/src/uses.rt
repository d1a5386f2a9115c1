//! What expressions use of variables.
ghost use Rattle.std.specs.Prelude.{◌≡◌, OnOk, IfOk, [], fold};
ghost use Rattle.std.specs.List.{cons_option};
ghost use Rattle.pattern_scope.specs.Names as names;
ghost use Rattle.typed_expr.specs.Uses as spec;

use crate::capture_set::Captures;
use crate::environment::Environment;
use crate::kinds::property_in;
use crate::query::{Capture, What};
use adfs_base::{Name, NoMemory};
use pattern_scope::declarations::Declarations;
use pattern_scope::scope::short;
use pgql_tree::{AstExpr, Placed};
use sqlite_items::Boxed;

/// The use of a variable's key or label.
pub fn use_of(
    what: What,
    variable: &Boxed<Placed>,
    variables: &Declarations,
) -> Result<Option<Capture>, NoMemory>
    ensures { IfOk result (λ used. used ≡ spec.use_of what (names.variable_of variables.now variable.now.name)) }
{
    match variables.variable_of(&variable.get().name) {
        None => Ok(None),
        Some((number, _)) => {
            let variable = short(number)?;
            Ok(Some(Capture { variable, what }))
        }
    }
}

/// The use of a variable's property.
pub fn property_use(
    variable: &Boxed<Name>,
    property: &Boxed<Name>,
    environment: Environment<'_>,
) -> Result<Option<Capture>, NoMemory>
    ensures { IfOk result (λ used. used ≡ spec.property_use environment.entry.schema.now property.now (names.variable_of environment.entry.variables.now variable.now)) }
{
    match environment.variables.variable_of(variable.get()) {
        None => Ok(None),
        Some((number, edge)) => match property_in(environment.schema, edge, property.get()) {
            None => Ok(None),
            Some((place, kind)) => {
                let variable = short(number)?;
                Ok(Some(Capture {
                    variable,
                    what: What::Property(place, kind),
                }))
            }
        },
    }
}

// Adds a use, if it is one.
fn add_use(found: &mut Captures, used: Option<Capture>) -> Result<(), NoMemory>
    ensures { OnOk result (found.new ≡ fold spec.with_use found.old (cons_option used [])) }
{
    match used {
        Some(used) => found.add(used),
        None => Ok(()),
    }
}

/// Adds the uses of variables in an expression, each once.
pub fn add_uses(
    expr: &AstExpr,
    environment: Environment<'_>,
    found: &mut Captures,
) -> Result<(), NoMemory>
    ensures { OnOk result (found.new ≡ fold spec.with_use found.old (spec.uses environment.entry.schema.now environment.entry.variables.now expr.now)) }
{
    match expr {
        AstExpr::Property {
            variable,
            property,
            ..
        } => {
            let used = property_use(variable, property, environment)?;
            add_use(found, used)
        }
        AstExpr::Id { variable, .. } => {
            let used = use_of(What::Id, variable, environment.variables)?;
            add_use(found, used)
        }
        AstExpr::Label { variable, .. } => {
            let used = use_of(What::Label, variable, environment.variables)?;
            add_use(found, used)
        }
        AstExpr::Not { inside, .. } => add_uses(inside.get(), environment, found),
        AstExpr::Neg { inside, .. } => add_uses(inside.get(), environment, found),
        AstExpr::IsNull { inside, .. } => add_uses(inside.get(), environment, found),
        AstExpr::Binary { left, right, .. } => {
            add_uses(left.get(), environment, found)?;
            add_uses(right.get(), environment, found)
        }
        AstExpr::Int { .. } => Ok(()),
        AstExpr::Text { .. } => Ok(()),
        AstExpr::Date { .. } => Ok(()),
        AstExpr::Bool { .. } => Ok(()),
        AstExpr::Name { .. } => Ok(()),
    }
}
