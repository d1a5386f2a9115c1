//! Values of expressions.
ghost use Rattle.std.specs.Prelude.{◌≡◌, ◌+ℤ◌, ◌-ℤ◌, ◌*ℤ◌, not};
ghost use Rattle.std.specs.Option.{option_map};
ghost use Rattle.std.specs.Ordering.{is_eq};
ghost use Rattle.value_text.specs.Order.{value_order};
ghost use Rattle.typed_query.specs.Val as val;

use crate::expr::Expr;
use adfs_base::Value;
use pgql_tree::Op;
use std::cmp::Ordering;
use value_text::{Texts, compare};

// NOT.
fn negation(a: Value) -> Value
    ensures { result ≡ val.negation a }
{
    match a {
        Value::Bool(a) => Value::Bool(!a),
        _ => Value::Null,
    }
}

// AND: false where a side is false, else null where a side is null, else true.
fn conjunction(a: Value, b: Value) -> Value
    ensures { result ≡ val.conjunction a b }
{
    match (a, b) {
        (Value::Bool(a), Value::Bool(b)) => Value::Bool(a && b),
        (Value::Bool(false), Value::Null) | (Value::Null, Value::Bool(false)) => Value::Bool(false),
        _ => Value::Null,
    }
}

// OR: true where a side is true, else null where a side is null, else false.
fn disjunction(a: Value, b: Value) -> Value
    ensures { result ≡ val.disjunction a b }
{
    match (a, b) {
        (Value::Bool(a), Value::Bool(b)) => Value::Bool(a || b),
        (Value::Bool(true), Value::Null) | (Value::Null, Value::Bool(true)) => Value::Bool(true),
        _ => Value::Null,
    }
}

// IS NULL, or IS NOT NULL where `negated`.
fn null_test(a: Value, negated: bool) -> Value
    ensures { result ≡ val.null_test a negated }
{
    let is_null = match a {
        Value::Null => true,
        _ => false,
    };
    Value::Bool(is_null != negated)
}

// A whole number, or null where there is none.
fn whole(number: Option<i64>) -> Value
    ensures { result ≡ val.whole_of number }
{
    match number {
        Some(number) => Value::Int(number),
        None => Value::Null,
    }
}

// A truth value, or null where there is none.
fn truth(truth: Option<bool>) -> Value
    ensures { result ≡ val.truth_of truth }
{
    match truth {
        Some(truth) => Value::Bool(truth),
        None => Value::Null,
    }
}

// A sign minus.
fn minus(a: Value) -> Value
    ensures { result ≡ val.minus a }
{
    match a {
        Value::Int(a) => whole(a.checked_neg()),
        _ => Value::Null,
    }
}

fn sum(a: i64, b: i64) -> Value
    ensures { result ≡ val.whole (a +ℤ b) }
{
    whole(a.checked_add(b))
}

fn difference(a: i64, b: i64) -> Value
    ensures { result ≡ val.whole (a -ℤ b) }
{
    whole(a.checked_sub(b))
}

fn product(a: i64, b: i64) -> Value
    ensures { result ≡ val.whole (a *ℤ b) }
{
    whole(a.checked_mul(b))
}

// Rounded toward zero.
fn quotient(a: i64, b: i64) -> Value
    ensures { result ≡ val.quotient a b }
{
    whole(a.checked_div(b))
}

// With the dividend's sign. By -1 it is 0, also of the least number.
fn remainder(a: i64, b: i64) -> Value
    ensures { result ≡ val.remainder a b }
{
    if b == 0 {
        return Value::Null;
    }
    Value::Int(a.wrapping_rem(b))
}

// How two values of one kind stand to each other, and nothing for other values.
fn order_of(a: Value, b: Value, texts: &Texts) -> Option<Ordering>
    ensures { result ≡ val.order_of texts.now a b }
{
    match (a, b) {
        (Value::Int(_), Value::Int(_))
        | (Value::Text(_), Value::Text(_))
        | (Value::Bool(_), Value::Bool(_))
        | (Value::Date(_), Value::Date(_)) => Some(compare(&a, &b, texts)),
        _ => None,
    }
}

// Whether two texts are equal. Those that are there differ from one another, so their numbers tell.
fn is_same_text(a: u32, b: u32, texts: &Texts) -> bool
    ensures { result ≡ is_eq (value_order texts.now (Value.Text a) (Value.Text b)) }
{
    if a == b {
        return true;
    }
    if a < texts.len() && b < texts.len() {
        return false;
    }
    compare(&Value::Text(a), &Value::Text(b), texts).is_eq()
}

// Whether two values of one kind are equal, and nothing for other values.
fn equality(a: Value, b: Value, texts: &Texts) -> Option<bool>
    ensures { result ≡ option_map is_eq (val.order_of texts.now a b) }
{
    match (a, b) {
        (Value::Text(a), Value::Text(b)) => Some(is_same_text(a, b, texts)),
        _ => match order_of(a, b, texts) {
            Some(order) => Some(order.is_eq()),
            None => None,
        },
    }
}

fn opposite(truth: Option<bool>) -> Option<bool>
    ensures { result ≡ option_map not truth }
{
    match truth {
        Some(truth) => Some(!truth),
        None => None,
    }
}

// Whether a comparison holds of sides that stand so.
fn holds(op: Op, order: Ordering) -> bool
    ensures { result ≡ val.holds op order }
{
    match op {
        Op::Equal => order.is_eq(),
        Op::Unequal => order.is_ne(),
        Op::Less => order.is_lt(),
        Op::LessEqual => order.is_le(),
        Op::Greater => order.is_gt(),
        Op::GreaterEqual => order.is_ge(),
        _ => false,
    }
}

// A comparison by order; null for values of two kinds.
fn compared(op: Op, a: Value, b: Value, texts: &Texts) -> Value
    ensures { result ≡ val.compared texts.now (val.holds op) a b }
{
    match order_of(a, b, texts) {
        Some(order) => Value::Bool(holds(op, order)),
        None => Value::Null,
    }
}

// An operator of arithmetic; null where a side isn't a whole number.
fn arithmetic(op: Op, a: Value, b: Value) -> Value
    ensures { result ≡ val.arithmetic op a b }
{
    match (a, b) {
        (Value::Int(a), Value::Int(b)) => computed(op, a, b),
        _ => Value::Null,
    }
}

// An operator with the values of its sides.
fn applied(op: Op, a: Value, b: Value, texts: &Texts) -> Value
    ensures { result ≡ val.applied texts.now op a b }
{
    match op {
        Op::Or => disjunction(a, b),
        Op::And => conjunction(a, b),
        Op::Equal => truth(equality(a, b, texts)),
        Op::Unequal => truth(opposite(equality(a, b, texts))),
        Op::Less | Op::LessEqual | Op::Greater | Op::GreaterEqual => compared(op, a, b, texts),
        Op::Add | Op::Subtract | Op::Multiply | Op::Divide | Op::Remainder => arithmetic(op, a, b),
    }
}

// What an operator of arithmetic gives.
fn computed(op: Op, a: i64, b: i64) -> Value
    ensures { result ≡ val.computed op a b }
{
    match op {
        Op::Add => sum(a, b),
        Op::Subtract => difference(a, b),
        Op::Multiply => product(a, b),
        Op::Divide => quotient(a, b),
        Op::Remainder => remainder(a, b),
        _ => Value::Null,
    }
}

/// The value of an expression over captured values, by SQL's three-valued logic.
///
/// A captured value that isn't there is null. Arithmetic gives null on null, where i64 lacks the result, and
/// for a zero divisor; division rounds toward zero, and a remainder has the dividend's sign. A comparison
/// with null is null. An operation on a value of a wrong kind is null, and a text that isn't there is empty, so
/// each expression has a value. It takes no memory.
pub fn value(expr: &Expr, captured: &[Value], texts: &Texts) -> Value
    ensures { result ≡ val.val texts.now captured.now expr.now }
{
    match expr {
        Expr::Constant(constant) => *constant,
        Expr::Captured(place) => match captured.get(*place as usize) {
            Some(found) => *found,
            None => Value::Null,
        },
        Expr::Not(inside) => negation(value(inside.get(), captured, texts)),
        Expr::Neg(inside) => minus(value(inside.get(), captured, texts)),
        Expr::IsNull(inside, negated) => null_test(value(inside.get(), captured, texts), *negated),
        Expr::Binary(op, left, right) => {
            let a = value(left.get(), captured, texts);
            let b = value(right.get(), captured, texts);
            applied(*op, a, b, texts)
        }
    }
}

/// Whether an assignment passes a condition of this value: only on true.
pub fn passes(value: Value) -> bool
    ensures { result ≡ val.passes value }
{
    match value {
        Value::Bool(truth) => truth,
        _ => false,
    }
}
