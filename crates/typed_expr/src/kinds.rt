//! The kinds of expressions.
ghost use Rattle.std.specs.Prelude.{◌≡◌};
ghost use Rattle.graph_tables.specs.Properties.{kind_eq};
ghost use Rattle.typed_expr.specs.Faults as faults;
ghost use Rattle.typed_expr.specs.Kinds as spec;
ghost use Rattle.pattern_scope.specs.Names.{variable_of};
ghost use Rattle.value_text.specs.Dates.{date_cell};

use crate::environment::Environment;
use adfs_base::{Kind, Name};
use graph_tables::Schema;
use pattern_scope::declarations::Declarations;
use pattern_scope::fault::TypeFault;
use pgql_tree::{AstExpr, Content, Op, Placed};
use sqlite_items::Boxed;
use value_text::read_date;

/// An expression's place, and its kind or the first fault in it.
#[derive(Clone, Copy)]
pub struct Checked {
    pub at: u32,
    pub kind: Result<Kind, TypeFault>,
}

fn place_of(fault: TypeFault) -> u32
    ensures { result ≡ faults.place_of fault }
{
    match fault {
        TypeFault::UnknownName(at)
        | TypeFault::UnknownProperty(at)
        | TypeFault::KindMismatch(at)
        | TypeFault::DoubleName(at)
        | TypeFault::TooManyVariables(at)
        | TypeFault::Disconnected(at)
        | TypeFault::VariableKind(at)
        | TypeFault::KeyNotSelected(at)
        | TypeFault::BadDate(at) => at,
        TypeFault::NoMemory => 0,
    }
}

fn code_of(fault: TypeFault) -> u32
    ensures { result ≡ faults.code_of fault }
{
    match fault {
        TypeFault::UnknownName(_) => 40,
        TypeFault::UnknownProperty(_) => 41,
        TypeFault::KindMismatch(_) => 42,
        TypeFault::DoubleName(_) => 43,
        TypeFault::TooManyVariables(_) => 44,
        TypeFault::Disconnected(_) => 45,
        TypeFault::VariableKind(_) => 46,
        TypeFault::KeyNotSelected(_) => 48,
        TypeFault::BadDate(_) => 49,
        TypeFault::NoMemory => 0,
    }
}

/// The one of the lesser place, or at one place of the lesser number.
pub fn earlier(first: TypeFault, second: TypeFault) -> TypeFault
    ensures { result ≡ faults.earlier first second }
{
    let place = place_of(first);
    let other = place_of(second);
    if other < place || (other == place && code_of(second) < code_of(first)) {
        second
    } else {
        first
    }
}

/// The first of all.
pub fn first_of(all: &[TypeFault]) -> Option<TypeFault>
    ensures { result ≡ faults.first_of all.now }
{
    let mut first: Option<TypeFault> = None;
    for fault in all {
        first = match first {
            None => Some(*fault),
            Some(first) => Some(earlier(first, *fault)),
        };
    }
    first
}

fn is_kind(a: Kind, b: Kind) -> bool
    ensures { result ≡ kind_eq a b }
{
    match (a, b) {
        (Kind::Int, Kind::Int)
        | (Kind::Text, Kind::Text)
        | (Kind::Bool, Kind::Bool)
        | (Kind::Date, Kind::Date) => true,
        _ => false,
    }
}

fn needs(needed: Kind, at: u32, given: Kind) -> Result<Kind, TypeFault>
    ensures { result ≡ spec.needs needed at given }
{
    if is_kind(given, needed) {
        Ok(needed)
    } else {
        Err(TypeFault::KindMismatch(at))
    }
}

/// An operation with one part, which needs this kind and gives it.
pub fn one_part(needed: Kind, part: Checked) -> Result<Kind, TypeFault>
    ensures { result ≡ spec.one_part needed part }
{
    match part.kind {
        Ok(given) => needs(needed, part.at, given),
        Err(e) => Err(e),
    }
}

fn tested(part: Result<Kind, TypeFault>) -> Result<Kind, TypeFault>
    ensures { result ≡ spec.tested part }
{
    match part {
        Ok(_) => Ok(Kind::Bool),
        Err(e) => Err(e),
    }
}

fn two_of(needed: Kind, left: u32, right: u32, a: Kind, b: Kind) -> Result<Kind, TypeFault>
    ensures { result ≡ spec.two_of needed left right a b }
{
    if is_kind(a, needed) {
        needs(needed, right, b)
    } else {
        Err(TypeFault::KindMismatch(left))
    }
}

fn compared(right: u32, a: Kind, b: Kind) -> Result<Kind, TypeFault>
    ensures { result ≡ spec.compared right a b }
{
    if is_kind(a, b) {
        Ok(Kind::Bool)
    } else {
        Err(TypeFault::KindMismatch(right))
    }
}

fn operated(op: Op, left: u32, right: u32, a: Kind, b: Kind) -> Result<Kind, TypeFault>
    ensures { result ≡ spec.operated op left right a b }
{
    match op {
        Op::Or | Op::And => two_of(Kind::Bool, left, right, a, b),
        Op::Equal | Op::Unequal | Op::Less | Op::LessEqual | Op::Greater | Op::GreaterEqual =>
            compared(right, a, b),
        Op::Add | Op::Subtract | Op::Multiply | Op::Divide | Op::Remainder => {
            two_of(Kind::Int, left, right, a, b)
        }
    }
}

// An operator between two parts.
fn two_parts(op: Op, left: Checked, right: Checked) -> Result<Kind, TypeFault>
    ensures { result ≡ spec.on_kinds (spec.operated op left.at right.at) left.kind right.kind }
{
    match (left.kind, right.kind) {
        (Ok(a), Ok(b)) => operated(op, left.at, right.at, a, b),
        (Ok(_), Err(e)) => Err(e),
        (Err(e), Ok(_)) => Err(e),
        (Err(e), Err(g)) => Err(earlier(e, g)),
    }
}

fn date_kind(content: &Content, at: u32) -> Result<Kind, TypeFault>
    ensures { result ≡ spec.date_kind at (date_cell content.now) }
{
    match read_date(content.as_slice()) {
        Some(_) => Ok(Kind::Date),
        None => Err(TypeFault::BadDate(at)),
    }
}

// The kind of a use of a variable, if there is that variable.
fn used_as(
    kind: Result<Kind, TypeFault>,
    variable: &Name,
    at: u32,
    variables: &Declarations,
) -> Result<Kind, TypeFault>
    ensures { result ≡ spec.used_as kind at (variable_of variables.now variable.now) }
{
    match variables.variable_of(variable) {
        Some(_) => kind,
        None => Err(TypeFault::UnknownName(at)),
    }
}

// The same of a call's variable.
fn called_as(
    kind: Result<Kind, TypeFault>,
    variable: &Boxed<Placed>,
    variables: &Declarations,
) -> Result<Kind, TypeFault>
    ensures { result ≡ spec.used_as kind variable.now.at (variable_of variables.now variable.now.name) }
{
    let variable = variable.get();
    used_as(kind, &variable.name, variable.at, variables)
}

/// The property of a vertex or of an edge.
pub fn property_in(schema: &Schema, edge: bool, name: &Name) -> Option<(u32, Kind)>
    ensures { result ≡ spec.property_in schema.now edge name.now }
{
    if edge {
        schema.edge_property(name.text().as_bytes())
    } else {
        schema.vertex_property(name.text().as_bytes())
    }
}

fn property_kind(
    variable: &Boxed<Name>,
    property: &Boxed<Name>,
    at: u32,
    environment: Environment<'_>,
) -> Result<Kind, TypeFault>
    ensures { result ≡ spec.kind_of_use environment.entry.schema.now property.now at (variable_of environment.entry.variables.now variable.now) }
{
    match environment.variables.variable_of(variable.get()) {
        Some((_, edge)) => match property_in(environment.schema, edge, property.get()) {
            Some((_, kind)) => Ok(kind),
            None => Err(TypeFault::UnknownProperty(at)),
        },
        None => Err(TypeFault::UnknownName(at)),
    }
}

// What was found of an expression at a place.
fn found(at: u32, kind: Result<Kind, TypeFault>) -> Checked
    ensures { result ≡ record { at = at; kind = kind } }
{
    Checked { at, kind }
}

/// An expression's place, and its kind or the first fault in it.
pub fn check(expr: &AstExpr, environment: Environment<'_>) -> Checked
    ensures { result ≡ spec.checked environment.entry.schema.now environment.entry.variables.now expr.now }
{
    match expr {
        AstExpr::Int { at, .. } => found(*at, Ok(Kind::Int)),
        AstExpr::Text { at, .. } => found(*at, Ok(Kind::Text)),
        AstExpr::Bool { at, .. } => found(*at, Ok(Kind::Bool)),
        AstExpr::Date { content, at } => found(*at, date_kind(content, *at)),
        AstExpr::Name { name, at } => {
            let alone = Err(TypeFault::VariableKind(*at));
            found(*at, used_as(alone, name, *at, environment.variables))
        }
        AstExpr::Property {
            variable,
            property,
            at,
        } => {
            let kind = property_kind(variable, property, *at, environment);
            found(*at, kind)
        }
        AstExpr::Id { variable, at } => {
            let kind = called_as(Ok(Kind::Int), variable, environment.variables);
            found(*at, kind)
        }
        AstExpr::Label { variable, at } => {
            let kind = called_as(Ok(Kind::Text), variable, environment.variables);
            found(*at, kind)
        }
        AstExpr::Not { inside, at } => {
            let part = check(inside.get(), environment);
            found(*at, one_part(Kind::Bool, part))
        }
        AstExpr::Neg { inside, at } => {
            let part = check(inside.get(), environment);
            found(*at, one_part(Kind::Int, part))
        }
        AstExpr::IsNull { inside, at, .. } => {
            let part = check(inside.get(), environment);
            found(*at, tested(part.kind))
        }
        AstExpr::Binary {
            op,
            left,
            right,
            at,
        } => {
            let a = check(left.get(), environment);
            let b = check(right.get(), environment);
            found(*at, two_parts(*op, a, b))
        }
    }
}
