//! The order of values.
ghost use Rattle.std.specs.Prelude.{◌≡◌, ◌<◌};
ghost use Rattle.value_text.specs.Order.{rank, value_order};
ghost use Rattle.value_text.specs.Texts.{text_at};

use crate::texts::Texts;
use adfs_base::Value;
use std::cmp::Ordering;

// How high a value's kind stands.
fn rank_of(value: &Value) -> u8
    ensures { result ≡ rank value.now }
{
    match value {
        Value::Int(_) => 0,
        Value::Text(_) => 1,
        Value::Bool(_) => 2,
        Value::Date(_) => 3,
        Value::Null => 4,
    }
}

// The text of a number, or an empty one where there is none.
fn text_or_empty(number: u32, texts: &Texts) -> &[u8]
    ensures { result.now ≡ text_at texts.now number }
{
    if number < texts.len() {
        texts.get(number)
    } else {
        &[]
    }
}

/// Which of two values comes first: whole numbers go by size, texts by their bytes, false before true,
/// dates by day, and null after all others. It takes no memory.
///
/// Values of two kinds go by their kinds, in the order that `Kind` lists, and a text that isn't there is
/// empty, so that any values can be sorted.
pub fn compare(a: &Value, b: &Value, texts: &Texts) -> Ordering
    ensures { result ≡ value_order texts.now a.now b.now }
{
    match (*a, *b) {
        (Value::Int(x), Value::Int(y)) => x.cmp(&y),
        (Value::Text(x), Value::Text(y)) => text_or_empty(x, texts).cmp(text_or_empty(y, texts)),
        (Value::Bool(x), Value::Bool(y)) => x.cmp(&y),
        (Value::Date(x), Value::Date(y)) => x.cmp(&y),
        _ => rank_of(a).cmp(&rank_of(b)),
    }
}
