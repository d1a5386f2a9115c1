//! Values as words. What kind of value a word says stands with its column.
ghost use Rattle.std.specs.Prelude.{◌≡◌};
ghost use Rattle.element_store.specs.Words as words;
ghost use Rattle.element_store.specs.Words.{HasKind};

use adfs_base::{Kind, Value};

/// The word of a value among those of a kind; none where it is null or of another kind.
pub fn word_from(kind: Kind, value: Value) -> Option<u64>
    ensures word { result ≡ words.word_from kind value }
    ensures back { HasKind kind value → words.value_from kind result ≡ value }
{
    match (kind, value) {
        (Kind::Int, Value::Int(number)) => Some(number.cast_unsigned()),
        (Kind::Text, Value::Text(number)) => Some(u64::from(number)),
        (Kind::Bool, Value::Bool(truth)) => Some(u64::from(truth)),
        (Kind::Date, Value::Date(day)) => Some(u64::from(day.cast_unsigned())),
        _ => None,
    }
}

/// The value of a word, by its column's kind. A word that is missing says null.
pub fn value_from(kind: Kind, word: Option<u64>) -> Value
    ensures { result ≡ words.value_from kind word }
{
    let Some(word) = word else {
        return Value::Null;
    };
    match kind {
        Kind::Int => Value::Int(word.cast_signed()),
        Kind::Text => Value::Text((word % 4_294_967_296) as u32),
        Kind::Bool => Value::Bool(word == 1),
        Kind::Date => Value::Date(((word % 4_294_967_296) as u32).cast_signed()),
    }
}
