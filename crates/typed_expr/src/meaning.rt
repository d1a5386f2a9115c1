//! What expressions mean, once it is known what their names stand for.
ghost use Rattle.std.specs.Prelude.{◌≡◌, ◌++◌, ◌∷◌, [], IfOk, Ok, OnOk};
ghost use Rattle.value_text.specs.Dates.{date_cell};
ghost use Rattle.value_text.specs.Texts.{number_of};
ghost use Rattle.typed_expr.specs.Meaning as spec;
ghost use Rattle.pattern_scope.specs.Names.{variable_of};
ghost use Rattle.typed_expr.specs.Uses as uses;
ghost use Rattle.typed_query.specs.declared.expr.Expr.{Expr};
ghost use Rattle.typed_query.specs.declared.expr.Expr.TheVariants as e;

use crate::capture_set::Captures;
use crate::environment::Environment;
use crate::expr::Expr;
use crate::query::{Capture, What};
use crate::uses::{property_use, use_of};
use adfs_base::{Name, NoMemory, Value};
use pattern_scope::scope::short;
use pgql_tree::{AstExpr, Content, Op, Placed};
use sqlite_items::{Boxed, Items};
use std::alloc::Global;
use value_text::{Texts, read_date};

/// What the names and texts of a query stand for.
#[derive(Clone, Copy)]
pub struct Scene<'a> {
    pub alloc: Global,
    pub environment: Environment<'a>,
    pub captures: &'a Captures,
    pub texts: &'a Texts,
}

fn captured(captures: &Captures, used: Option<Capture>) -> Result<Expr, NoMemory>
    ensures { IfOk result (λ expr. expr ≡ spec.captured captures.now used) }
{
    match used {
        None => Ok(Expr::Constant(Value::Null)),
        Some(used) => Ok(Expr::Captured(short(captures.place_of(used))?)),
    }
}

fn int_value(number: &i64) -> Value
    ensures { result ≡ Value.Int number.now }
{
    Value::Int(*number)
}

fn date_value(content: &Content) -> Value
    ensures { result ≡ spec.date_value (date_cell content.now) }
{
    match read_date(content.as_slice()) {
        Some(day) => Value::Date(day),
        None => Value::Null,
    }
}

fn text_value(content: &Content, texts: &Texts) -> Value
    ensures { result ≡ Value.Text (number_of texts.now content.now) }
{
    match texts.find(content.as_slice()) {
        Some(number) => Value::Text(number),
        None => Value::Text(texts.len()),
    }
}

// What the key or the label of a variable means.
fn meant_use(what: What, variable: &Boxed<Placed>, scene: Scene<'_>) -> Result<Expr, NoMemory>
    ensures { IfOk result (λ found. found ≡ spec.captured scene.entry.captures.now (uses.use_of what (variable_of scene.entry.environment.variables.now variable.now.name))) }
{
    let used = use_of(what, variable, scene.environment.variables)?;
    captured(scene.captures, used)
}

// What a property of a variable means.
fn meant_property(
    variable: &Boxed<Name>,
    property: &Boxed<Name>,
    scene: Scene<'_>,
) -> Result<Expr, NoMemory>
    ensures { IfOk result (λ found. found ≡ spec.captured scene.entry.captures.now (uses.property_use scene.entry.environment.schema.now property.now (variable_of scene.entry.environment.variables.now variable.now))) }
{
    let used = property_use(variable, property, scene.environment)?;
    captured(scene.captures, used)
}

fn negation(alloc: Global, part: Expr) -> Result<Expr, NoMemory>
    ensures { IfOk result (λ found. found ≡ e.Not part) }
{
    Ok(Expr::Not(Boxed::new(alloc, part)?))
}

fn minus(alloc: Global, part: Expr) -> Result<Expr, NoMemory>
    ensures { IfOk result (λ found. found ≡ e.Neg part) }
{
    Ok(Expr::Neg(Boxed::new(alloc, part)?))
}

fn null_test(alloc: Global, part: Expr, negated: bool) -> Result<Expr, NoMemory>
    ensures { IfOk result (λ found. found ≡ e.IsNull part negated) }
{
    Ok(Expr::IsNull(Boxed::new(alloc, part)?, negated))
}

fn binary(alloc: Global, op: Op, left: Expr, right: Expr) -> Result<Expr, NoMemory>
    ensures { IfOk result (λ found. found ≡ e.Binary op left right) }
{
    let left = Boxed::new(alloc, left)?;
    Ok(Expr::Binary(op, left, Boxed::new(alloc, right)?))
}

// An operator between its left side and what is found to be its right one.
fn with_right(
    alloc: Global,
    op: Op,
    left: Expr,
    right: Result<Expr, NoMemory>,
) -> Result<Expr, NoMemory>
    ensures { IfOk result (λ found. (side : Expr) × (right ≡ Ok side) × (found ≡ e.Binary op left side)) }
{
    match right {
        Ok(right) => binary(alloc, op, left, right),
        Err(_) => Err(NoMemory),
    }
}

/// What an expression means.
pub fn meant(expr: &AstExpr, scene: Scene<'_>) -> Result<Expr, NoMemory>
    ensures { IfOk result (λ found. found ≡ spec.meant scene.entry.environment.schema.now scene.entry.environment.variables.now scene.entry.captures.now scene.entry.texts.now expr.now) }
{
    match expr {
        AstExpr::Int { number, .. } => Ok(Expr::Constant(int_value(number))),
        AstExpr::Text { content, .. } => Ok(Expr::Constant(text_value(content, scene.texts))),
        AstExpr::Date { content, .. } => Ok(Expr::Constant(date_value(content))),
        AstExpr::Bool { truth, .. } => Ok(Expr::Constant(Value::Bool(*truth))),
        AstExpr::Name { .. } => Ok(Expr::Constant(Value::Null)),
        AstExpr::Property {
            variable,
            property,
            ..
        } => meant_property(variable, property, scene),
        AstExpr::Id { variable, .. } => meant_use(What::Id, variable, scene),
        AstExpr::Label { variable, .. } => meant_use(What::Label, variable, scene),
        AstExpr::Not { inside, .. } => negation(scene.alloc, meant(inside.get(), scene)?),
        AstExpr::Neg { inside, .. } => minus(scene.alloc, meant(inside.get(), scene)?),
        AstExpr::IsNull {
            inside,
            negated,
            ..
        } => null_test(scene.alloc, meant(inside.get(), scene)?, *negated),
        AstExpr::Binary {
            op,
            left,
            right,
            ..
        } => {
            let left = meant(left.get(), scene)?;
            let right = meant(right.get(), scene);
            with_right(scene.alloc, *op, left, right)
        }
    }
}

fn is_and(op: Op) -> bool
    ensures { result ≡ spec.is_and op }
{
    match op {
        Op::And => true,
        _ => false,
    }
}

fn add(part: Expr, found: &mut Items<Expr>) -> Result<(), NoMemory>
    ensures { OnOk result (found.new ≡ found.old ++ part ∷ []) }
{
    found.push(part)?;
    Ok(())
}

/// Adds the parts of a condition at its top-level ANDs.
pub fn add_conjuncts(condition: Expr, found: &mut Items<Expr>) -> Result<(), NoMemory>
    ensures { OnOk result (found.new ≡ found.old ++ spec.conjuncts condition) }
{
    match condition {
        Expr::Binary(op, left, right) => {
            if is_and(op) {
                add_conjuncts(left.into_inner(), found)?;
                add_conjuncts(right.into_inner(), found)
            } else {
                add(Expr::Binary(op, left, right), found)
            }
        }
        Expr::Constant(value) => add(Expr::Constant(value), found),
        Expr::Captured(place) => add(Expr::Captured(place), found),
        Expr::Not(inside) => add(Expr::Not(inside), found),
        Expr::Neg(inside) => add(Expr::Neg(inside), found),
        Expr::IsNull(inside, negated) => add(Expr::IsNull(inside, negated), found),
    }
}
