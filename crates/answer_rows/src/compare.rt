//! The orders of matches.
ghost use Rattle.std.specs.Prelude.{◌≡◌, drop};
ghost use Rattle.answer_rows.specs.Arranged as arranged;
ghost use Rattle.answer_rows.specs.Orders as orders;

use crate::{Arrangement, Match};
use adfs_base::Value;
use std::cmp::Ordering;
use value_text::{Texts, compare};

fn directed(down: bool, order: Ordering) -> Ordering
    ensures { result ≡ orders.directed down order }
{
    if down { order.reverse() } else { order }
}

fn first_key(keys: &[Value]) -> Value
    ensures { result ≡ orders.first_key keys.now }
{
    match keys {
        [] => Value::Null,
        [first, ..] => *first,
    }
}

fn other_keys(keys: &[Value]) -> &[Value]
    ensures { result.now ≡ drop 1 keys.now }
{
    match keys {
        [] => keys,
        [_, others @ ..] => others,
    }
}

// By the first key that differs, each in its direction.
fn compare_keys(downs: &[bool], a: &[Value], b: &[Value], texts: &Texts) -> Ordering
    ensures { result ≡ orders.keys_order texts.now downs.now a.now b.now }
{
    let (mut rest, mut xs, mut ys) = (downs, a, b);
    while let [down, others @ ..] = rest {
        let order = directed(*down, compare(&first_key(xs), &first_key(ys), texts));
        if order.is_ne() {
            return order;
        }
        rest = others;
        xs = other_keys(xs);
        ys = other_keys(ys);
    }
    Ordering::Equal
}

/// By the first column that differs; of two rows of which one begins the other, the shorter comes first.
pub(crate) fn compare_rows(a: &[Value], b: &[Value], texts: &Texts) -> Ordering
    ensures { result ≡ orders.row_order texts.now a.now b.now }
{
    let (mut xs, mut ys) = (a, b);
    while let [x, others @ ..] = xs {
        let Some((y, after)) = ys.split_first() else {
            return Ordering::Greater;
        };
        let order = compare(x, y, texts);
        if order.is_ne() {
            return order;
        }
        xs = others;
        ys = after;
    }
    if ys.is_empty() {
        Ordering::Equal
    } else {
        Ordering::Less
    }
}

fn compare_ties(distinct: bool, a: &Match, b: &Match, texts: &Texts) -> Ordering
    ensures { result ≡ arranged.ties_order texts.now distinct a.now b.now }
{
    if distinct {
        compare_rows(a.row(), b.row(), texts)
    } else {
        a.numbers().cmp(b.numbers())
    }
}

/// Which of two matches comes first.
pub(crate) fn compare_matches(
    arrangement: &Arrangement,
    a: &Match,
    b: &Match,
    texts: &Texts,
) -> Ordering
    ensures { result ≡ arranged.match_order texts.now arrangement.now a.now b.now }
{
    compare_keys(arrangement.downs(), a.keys(), b.keys(), texts).then(compare_ties(
        arrangement.distinct(),
        a,
        b,
        texts,
    ))
}
