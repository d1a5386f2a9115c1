//! How expressions are written.

ghost use Rattle.std.specs.Prelude.{◌≡◌, ◌<◌, ◌++◌, ◌∷◌, [], drop, length, flat_map, codes, OnOk, IfOk};
ghost use Rattle.std.specs.Fmt.{signed_decimal};
ghost use Rattle.pgql_tree.specs.Levels.{tighter};
ghost use Rattle.pgql_print.specs.Printing as spec;

use adfs_base::Name;
use itoa::Buffer;
use memchr::memchr;
use pgql_tree::{AstExpr, Level, Op, Placed};
use sqlite_items::Boxed;
use std::alloc::AllocError;

pub fn level_of(op: Op) -> Level
    ensures { result ≡ spec.level_of op }
{
    match op {
        Op::Or => Level::Or,
        Op::And => Level::And,
        Op::Add | Op::Subtract => Level::Sum,
        Op::Multiply | Op::Divide | Op::Remainder => Level::Product,
        Op::Equal | Op::Unequal | Op::Less | Op::LessEqual | Op::Greater | Op::GreaterEqual => {
            Level::Test
        }
    }
}

/// What the left side of an operator is.
fn left_of(op: Op) -> Level
    ensures { result ≡ spec.left_of op }
{
    match op {
        Op::Or => Level::Or,
        Op::And => Level::And,
        Op::Multiply | Op::Divide | Op::Remainder => Level::Product,
        Op::Add | Op::Subtract => Level::Sum,
        Op::Equal | Op::Unequal | Op::Less | Op::LessEqual | Op::Greater | Op::GreaterEqual => {
            Level::Sum
        }
    }
}

/// The operator with a space on either side.
fn sign_of(op: Op) -> &'static [u8]
    ensures { result.now ≡ spec.sign_of op }
{
    match op {
        Op::Or => b" OR ",
        Op::And => b" AND ",
        Op::Equal => b" = ",
        Op::Unequal => b" <> ",
        Op::Less => b" < ",
        Op::LessEqual => b" <= ",
        Op::Greater => b" > ",
        Op::GreaterEqual => b" >= ",
        Op::Add => b" + ",
        Op::Subtract => b" - ",
        Op::Multiply => b" * ",
        Op::Divide => b" / ",
        Op::Remainder => b" % ",
    }
}

fn rank(level: Level) -> u32
    ensures { result ≡ spec.rank level }
{
    match level {
        Level::Or => 1,
        Level::And => 2,
        Level::Not => 3,
        Level::Test => 4,
        Level::Sum => 5,
        Level::Product => 6,
        Level::Sign => 7,
        Level::Primary => 8,
    }
}

/// Whether `own` binds less tightly than `place`.
fn is_looser(place: Level, own: Level) -> bool
    ensures { result ≡ spec.is_looser place own }
{
    rank(own) < rank(place)
}

fn own_level(x: &AstExpr) -> Level
    ensures { result ≡ spec.own_level x.now }
{
    match x {
        AstExpr::Int { .. } => Level::Primary,
        AstExpr::Text { .. } => Level::Primary,
        AstExpr::Date { .. } => Level::Primary,
        AstExpr::Bool { .. } => Level::Primary,
        AstExpr::Name { .. } => Level::Primary,
        AstExpr::Property { .. } => Level::Primary,
        AstExpr::Id { .. } => Level::Primary,
        AstExpr::Label { .. } => Level::Primary,
        AstExpr::Not { .. } => Level::Not,
        AstExpr::Neg { .. } => Level::Sign,
        AstExpr::IsNull { .. } => Level::Test,
        AstExpr::Binary { op, .. } => level_of(*op),
    }
}

pub fn put(out: &mut Vec<u8>, text: &[u8]) -> Result<(), AllocError>
    ensures { OnOk result (out.new.items ≡ out.old.items ++ text.now) }
{
    out.extend_from_slice(text)
}

/// The name.
pub fn put_name(out: &mut Vec<u8>, name: &Name) -> Result<(), AllocError>
    ensures { OnOk result (out.new.items ≡ out.old.items ++ name.now) }
{
    put(out, name.text().as_bytes())
}

fn put_number(out: &mut Vec<u8>, number: &i64) -> Result<(), AllocError>
    ensures { OnOk result (out.new.items ≡ out.old.items ++ signed_decimal number.now) }
{
    let mut buffer = Buffer::new();
    put(out, buffer.format(*number).as_bytes())
}

/// The content of a literal between quotes.
fn put_quoted(out: &mut Vec<u8>, content: &[u8]) -> Result<(), AllocError>
    ensures { OnOk result (out.new.items ≡ out.old.items ++ spec.quoted content.now) }
{
    put(out, b"'")?;
    put_content(out, content)?;
    put(out, b"'")?;
    Ok(())
}

/// What stands after the first byte.
fn behind_first(bytes: &[u8]) -> &[u8]
    requires { 0 < length bytes.now }
    ensures rest { result.now ≡ drop 1 bytes.now }
    ensures shorter { length result.now < length bytes.now }
{
    &bytes[1..]
}

/// The content of a literal, each quote doubled.
fn put_content(out: &mut Vec<u8>, content: &[u8]) -> Result<(), AllocError>
    ensures { OnOk result (out.new.items ≡ out.old.items ++ flat_map spec.doubled content.now) }
{
    let mut rest = content;
    while let Some(plain) = memchr(b'\'', rest) {
        put(out, &rest[..plain])?;
        put(out, b"''")?;
        rest = behind_first(&rest[plain..]);
    }
    put(out, rest)
}

fn put_date(out: &mut Vec<u8>, content: &[u8]) -> Result<(), AllocError>
    ensures { OnOk result (out.new.items ≡ out.old.items ++ (codes "DATE " ++ spec.quoted content.now)) }
{
    put(out, b"DATE ")?;
    put_quoted(out, content)?;
    Ok(())
}

fn put_truth(out: &mut Vec<u8>, truth: bool) -> Result<(), AllocError>
    ensures { OnOk result (out.new.items ≡ out.old.items ++ spec.truth truth) }
{
    if truth {
        put(out, b"TRUE")
    } else {
        put(out, b"FALSE")
    }
}

fn put_property(
    out: &mut Vec<u8>,
    variable: &Boxed<Name>,
    property: &Boxed<Name>,
) -> Result<(), AllocError>
    ensures { OnOk result (out.new.items ≡ out.old.items ++ (variable.now ++ (codes "." ++ property.now))) }
{
    put_name(out, variable.get())?;
    put(out, b".")?;
    put_name(out, property.get())?;
    Ok(())
}

/// A name after a function and its parenthesis.
fn put_call(out: &mut Vec<u8>, function: &[u8], variable: &Boxed<Placed>) -> Result<(), AllocError>
    ensures { OnOk result (out.new.items ≡ out.old.items ++ (function.now ++ (variable.now.name ++ codes ")"))) }
{
    put(out, function)?;
    put_name(out, &variable.get().name)?;
    put(out, b")")?;
    Ok(())
}

fn null_test(negated: bool) -> &'static [u8]
    ensures { result.now ≡ spec.null_test negated }
{
    if negated {
        b" IS NOT NULL"
    } else {
        b" IS NULL"
    }
}

/// The expression without parentheses round it.
#[cycle(put_expr)]
fn put_own(out: &mut Vec<u8>, x: &AstExpr) -> Result<(), AllocError>
    ensures { OnOk result (out.new.items ≡ out.old.items ++ spec.spelled x.now (spec.own_level x.now)) }
{
    match x {
        AstExpr::Int { number, .. } => put_number(out, number),
        AstExpr::Text { content, .. } => put_quoted(out, content.as_slice()),
        AstExpr::Date { content, .. } => put_date(out, content.as_slice()),
        AstExpr::Bool { truth, .. } => put_truth(out, *truth),
        AstExpr::Name { name, .. } => put_name(out, name),
        AstExpr::Property {
            variable,
            property,
            ..
        } => put_property(out, variable, property),
        AstExpr::Id { variable, .. } => put_call(out, b"id(", variable),
        AstExpr::Label { variable, .. } => put_call(out, b"label(", variable),
        AstExpr::Not { inside, .. } => {
            put(out, b"NOT ")?;
            put_expr(out, inside.get(), Level::Not)
        }
        AstExpr::Neg { inside, .. } => {
            put(out, b"-")?;
            put_expr(out, inside.get(), Level::Sign)
        }
        AstExpr::IsNull {
            inside,
            negated,
            ..
        } => {
            put_expr(out, inside.get(), Level::Sum)?;
            put(out, null_test(*negated))
        }
        AstExpr::Binary {
            op,
            left,
            right,
            ..
        } => {
            put_expr(out, left.get(), left_of(*op))?;
            put(out, sign_of(*op))?;
            put_expr(out, right.get(), level_of(*op).tighter())
        }
    }
}

/// The expression at a place that needs this level.
#[cycle(put_expr)]
pub fn put_expr(out: &mut Vec<u8>, x: &AstExpr, place: Level) -> Result<(), AllocError>
    ensures { OnOk result (out.new.items ≡ out.old.items ++ spec.spelled x.now place) }
{
    if is_looser(place, own_level(x)) {
        put(out, b"(")?;
        put_own(out, x)?;
        put(out, b")")?;
        Ok(())
    } else {
        put_own(out, x)?;
        Ok(())
    }
}
