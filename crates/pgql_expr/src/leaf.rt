//! Expressions of height 0: literals, names, properties and calls.

ghost use Rattle.std.specs.Prelude.{◌≡◌, ◌≢◌, IfOk, true, pos};
ghost use Rattle.pgql_lexemes.specs.Lexemes.{is_word, value_of, content_of};
ghost use Rattle.pgql_expr.specs.Reading as spec;
ghost use Rattle.pgql_lexemes.specs.Reads.{Reads, Makes};
ghost use Rattle.pgql_lexemes.specs.Told.{told};
ghost use Rattle.pgql_lexemes.specs.declared.kind.Kind.TheVariants as kind;

use crate::found::Found;
use pgql_lexemes::{Input, Kind, Lexeme, Stop};
use pgql_tree::{AstExpr, Placed};
use sqlite_items::Boxed;
use std::alloc::Global;

/// The functions of one variable.
#[derive(Clone, Copy)]
pub enum Function {
    Id,
    Label,
}

fn leaf_of(expr: AstExpr) -> Found
    ensures { result ≡ spec.found expr 0 }
{
    Found { expr, height: 0 }
}

/// The name alone.
fn plain(alloc: Global, t: Lexeme<'_>) -> Result<Found, Stop>
    requires { is_word t.kind ≡ true }
    ensures made { Makes (spec.found (AstExpr.Name (told t.entry).at (told t.entry).bytes) 0) result }
    ensures low { IfOk result (λ x. x.height ≡ 0) }
{
    Ok(leaf_of(AstExpr::Name {
        name: t.name(alloc)?,
        at: t.at,
    }))
}

/// The property of that name.
fn property_of(alloc: Global, t: Lexeme<'_>, p: Lexeme<'_>) -> Result<Found, Stop>
    requires variable { is_word t.kind ≡ true }
    requires property { is_word p.kind ≡ true }
    ensures made { Makes (spec.found (AstExpr.Property (told t.entry).at (told t.entry).bytes (told p.entry).bytes) 0) result }
    ensures low { IfOk result (λ x. x.height ≡ 0) }
{
    let variable = t.boxed_name(alloc)?;
    Ok(leaf_of(AstExpr::Property {
        variable,
        property: p.boxed_name(alloc)?,
        at: t.at,
    }))
}

/// `Name . Name`, from the dot on.
#[tactic(auto, unfolding(crate::specs::Reading::read_property))]
fn property(alloc: Global, input: &mut Input<'_>, t: Lexeme<'_>) -> Result<Found, Stop>
    requires { is_word t.kind ≡ true }
    ensures reads { Reads (spec.read_property (told t.entry) input.old) result input.new }
    ensures low { IfOk result (λ x. x.height ≡ 0) }
{
    input.take()?;
    let p = input.expect_word()?;
    property_of(alloc, t, p)
}

/// What the call of a function stands for.
fn call_of(function: Function, variable: Boxed<Placed>, at: u32) -> AstExpr
    ensures { result ≡ spec.call_of function variable at }
{
    match function {
        Function::Id => AstExpr::Id { variable, at },
        Function::Label => AstExpr::Label { variable, at },
    }
}

/// `( Name )`, after the name of a function.
#[tactic(auto, unfolding(crate::specs::Reading::read_call))]
fn call(
    alloc: Global,
    input: &mut Input<'_>,
    t: Lexeme<'_>,
    function: Function,
) -> Result<Found, Stop>
    ensures reads { Reads (spec.read_call (told t.entry) (spec.call_of function) input.old) result input.new }
    ensures low { IfOk result (λ x. x.height ≡ 0) }
{
    input.take()?;
    let v = input.expect(Kind::Name)?;
    input.expect(Kind::Close)?;
    Ok(leaf_of(call_of(function, v.placed(alloc)?, t.at)))
}

/// What an opening parenthesis after a name makes of it.
fn opened(alloc: Global, input: &mut Input<'_>, t: Lexeme<'_>) -> Result<Found, Stop>
    requires { is_word t.kind ≡ true }
    ensures reads { Reads (spec.opened (told t.entry) input.old) result input.new }
    ensures low { IfOk result (λ x. x.height ≡ 0) }
{
    if t.is_id() {
        call(alloc, input, t, Function::Id)
    } else if t.is_label() {
        call(alloc, input, t, Function::Label)
    } else {
        plain(alloc, t)
    }
}

/// What the next token makes of a name.
fn named(alloc: Global, input: &mut Input<'_>, t: Lexeme<'_>) -> Result<Found, Stop>
    requires { is_word t.kind ≡ true }
    ensures reads { Reads (spec.named (told t.entry) input.old) result input.new }
    ensures low { IfOk result (λ x. x.height ≡ 0) }
{
    let Some(next) = input.first() else {
        return plain(alloc, t);
    };
    match next.kind {
        Kind::Dot => property(alloc, input, t),
        Kind::Open => opened(alloc, input, t),
        _ => plain(alloc, t),
    }
}

/// `Name | Name . Name | ("id" | "label") ( Name )`
#[tactic(auto, unfolding(crate::specs::Reading::read_name))]
fn name(alloc: Global, input: &mut Input<'_>, t: Lexeme<'_>) -> Result<Found, Stop>
    requires { is_word t.kind ≡ true }
    ensures reads { Reads (spec.read_name (told t.entry) input.old) result input.new }
    ensures low { IfOk result (λ x. x.height ≡ 0) }
{
    input.take()?;
    named(alloc, input, t)
}

/// `DATE Text`
#[tactic(auto, unfolding(crate::specs::Reading::read_date))]
fn date(alloc: Global, input: &mut Input<'_>, d: Lexeme<'_>) -> Result<Found, Stop>
    ensures reads { Reads (spec.read_date (told d.entry) input.old) result input.new }
    ensures low { IfOk result (λ x. x.height ≡ 0) }
{
    input.take()?;
    let t = input.expect(Kind::Text)?;
    Ok(leaf_of(AstExpr::Date {
        content: t.content(alloc)?,
        at: d.at,
    }))
}

/// A number.
fn number(input: &mut Input<'_>, t: Lexeme<'_>) -> Result<Found, Stop>
    requires { t.kind ≡ kind.Number }
    ensures reads { Reads (spec.read_leaf (AstExpr.Int (pos (value_of (told t.entry))) (told t.entry).at) input.old) result input.new }
    ensures low { IfOk result (λ x. x.height ≡ 0) }
{
    input.take()?;
    Ok(leaf_of(AstExpr::Int {
        number: t.number() as i64,
        at: t.at,
    }))
}

/// A text literal.
fn text(alloc: Global, input: &mut Input<'_>, t: Lexeme<'_>) -> Result<Found, Stop>
    requires { t.kind ≡ kind.Text }
    ensures reads { Reads (spec.read_leaf (AstExpr.Text (content_of (told t.entry)) (told t.entry).at) input.old) result input.new }
    ensures low { IfOk result (λ x. x.height ≡ 0) }
{
    input.take()?;
    Ok(leaf_of(AstExpr::Text {
        content: t.content(alloc)?,
        at: t.at,
    }))
}

/// TRUE or FALSE.
fn truth(input: &mut Input<'_>, truth: bool, at: u32) -> Result<Found, Stop>
    ensures reads { Reads (spec.read_leaf (AstExpr.Bool truth at) input.old) result input.new }
    ensures low { IfOk result (λ x. x.height ≡ 0) }
{
    input.take()?;
    Ok(leaf_of(AstExpr::Bool { truth, at }))
}

/// A primary that isn't in parentheses and that begins with the next token, `t`.
pub fn leaf(alloc: Global, input: &mut Input<'_>, t: Lexeme<'_>) -> Result<Found, Stop>
    ensures reads { Reads (spec.leaf_by t.entry.kind (told t.entry) input.old) result input.new }
    ensures low { IfOk result (λ x. x.height ≡ 0) }
{
    match t.kind {
        Kind::Number => number(input, t),
        Kind::Text => text(alloc, input, t),
        Kind::True => truth(input, true, t.at),
        Kind::False => truth(input, false, t.at),
        Kind::Date => date(alloc, input, t),
        Kind::Name => name(alloc, input, t),
        _ => Err(Stop::Unexpected),
    }
}
