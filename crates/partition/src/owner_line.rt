//! One line of an owner file.
ghost use Rattle.std.specs.Prelude.{◌≡◌, ℕ, IfSome, ◌<◌, ◌-◌, ◌^◌, IsTrue, length, min, true};
ghost use Rattle.std.specs.Option.{option_map};
ghost use Rattle.std.specs.Str.Parse.{digits_value};
ghost use Rattle.partition.specs.OwnerFile.{capped, is_key, is_plain, named_by, vertex_named};

use graph_tables::Graph;
use std::str;
use text_lines::{all_digits, cut};
use value_text::read_key;

/// The vertex and the machine that a line names.
#[derive(Clone, Copy)]
pub(crate) struct Named {
    pub(crate) vertex: u32,
    /// The greatest `u32` where the line's number is greater.
    pub(crate) machine: u32,
}

// Whether the text is decimal digits without a leading zero.
fn is_plain(text: &[u8]) -> bool
    ensures { result ≡ is_plain text.now }
{
    match text.split_first() {
        Some((digit, rest)) => all_digits(text) && (*digit != b'0' || rest.is_empty()),
        None => false,
    }
}

// Whether the text has the form of a key.
fn is_key(text: &[u8]) -> bool
    ensures { result ≡ is_key text.now }
{
    match text.split_first() {
        Some((b'-', rest)) => is_plain(rest) && rest != b"0".as_slice(),
        Some(_) => is_plain(text),
        None => false,
    }
}

// The number of the vertex whose key the text is.
fn vertex_named(text: &[u8], graph: &Graph) -> Option<u32>
    ensures named { result ≡ vertex_named graph.now.vertices text.now }
    ensures within { IfSome result (λ vertex. vertex < length graph.now.vertices) }
{
    if !is_key(text) {
        return None;
    }
    match read_key(text) {
        Ok(key) => graph.vertex_of(key),
        Err(_) => None,
    }
}

// The number that plain digits write, or the greatest `u32` where that is less.
fn number(text: &[u8]) -> u32
    requires { is_plain text.now ≡ true }
    ensures { result ≡ min (digits_value 10 text.now) (2 ^ 32 - 1) }
{
    match str::from_utf8(text) {
        Ok(digits) => match digits.parse::<u32>() {
            Ok(number) => number,
            Err(_) => u32::MAX,
        },
        // It doesn't come: digits are UTF-8.
        Err(_) => 0,
    }
}

/// What a line names: `None` where its form is wrong or no vertex has its key.
pub(crate) fn named_by(line: &[u8], graph: &Graph) -> Option<Named>
    ensures named { option_map {U = ℕ × ℕ} (λ n. (n.vertex, n.machine)) result ≡ option_map capped (named_by graph.now.vertices line.now) }
    ensures within { IfSome result (λ n. n.vertex < length graph.now.vertices) }
{
    let (key, machine) = cut(line)?;
    if !is_plain(machine) {
        return None;
    }
    let vertex = vertex_named(key, graph)?;
    Some(Named {
        vertex,
        machine: number(machine),
    })
}
