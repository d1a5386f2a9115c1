//! Matches in the order of an answer.
ghost use Rattle.std.specs.Prelude.{◌≡◌, OnOk, IfOk, map, if◌then◌else◌};
ghost use Rattle.std.specs.List.{dedup};
ghost use Rattle.sorted_lists.specs.Sorted.{before_by, in_order};
ghost use Rattle.answer_rows.specs.Arranged as arranged;
ghost use Rattle.answer_rows.specs.Arranged.{has_row, match_order, rows_of, rows_order};

use crate::compare::{compare_matches, compare_rows};
use crate::{Match, Row};
use adfs_base::NoMemory;
use sorted_lists::sort_by;
use std::alloc::Global;
use std::cmp::Ordering;
use std::marker::Model;
use value_text::Texts;

/// How an answer's rows stand. A contract sees the record of its fields.
#[derive(Drop)]
pub struct Arrangement {
    downs: Vec<bool>,
    distinct: bool,
    limit: Option<u64>,
}

impl Model for Arrangement {
    ghost use Rattle.answer_rows.specs.Arranged as arranged;

    ghost Value = { arranged.Arrangement };

    ghost view = { λ a. record { downs = a.downs.items; distinct = a.distinct; limit = a.limit } };
}

impl Arrangement {
    /// For each order key whether it goes down; whether each row stands once; and how many rows there are at
    /// most, if there is a limit.
    pub fn new(downs: Vec<bool>, distinct: bool, limit: Option<u64>) -> Arrangement
        ensures { result ≡ record { downs = downs.items; distinct = distinct; limit = limit } }
    {
        Arrangement {
            downs,
            distinct,
            limit,
        }
    }

    pub(crate) fn downs(&self) -> &[bool]
        ensures { result.now ≡ self.now.downs }
    {
        &self.downs
    }

    pub(crate) fn distinct(&self) -> bool
        ensures { result ≡ self.now.distinct }
    {
        self.distinct
    }

    fn most(&self) -> Option<u64>
        ensures { result ≡ self.now.limit }
    {
        self.limit
    }
}

fn has_row(m: &Match, other: &Match, texts: &Texts) -> bool
    ensures { result ≡ has_row texts.now m.now other.now }
{
    compare_rows(m.row(), other.row(), texts).is_eq()
}

fn sort_by_rows(matches: &mut Vec<Match>, texts: &Texts) -> Result<(), NoMemory>
    ensures { OnOk result (matches.new.items ≡ in_order (before_by (rows_order texts.now)) matches.old.items) }
{
    sort_by(
        matches,
        |a: &Match, b: &Match| -> Ordering
            ensures { result ≡ rows_order texts.entry.now a.now b.now }
        { compare_rows(a.row(), b.row(), texts) },
    )?;
    Ok(())
}

// Of neighbours with one row the first.
fn drop_doubles(matches: &mut Vec<Match>, texts: &Texts)
    ensures { matches.new.items ≡ dedup (has_row texts.now) matches.old.items }
{
    matches.dedup_by(
        |m: &mut Match, kept: &mut Match| -> bool
            ensures same { result ≡ has_row texts.entry.now m.old kept.old }
            ensures m { m.new ≡ m.old }
            ensures kept { kept.new ≡ kept.old }
        { has_row(m, kept, texts) },
    );
}

fn sort(matches: &mut Vec<Match>, arrangement: &Arrangement, texts: &Texts) -> Result<(), NoMemory>
    ensures { OnOk result (matches.new.items ≡ in_order (before_by (match_order texts.now arrangement.now)) matches.old.items) }
{
    sort_by(
        matches,
        |a: &Match, b: &Match| -> Ordering
            ensures { result ≡ match_order texts.entry.now arrangement.entry.now a.now b.now }
        { compare_matches(arrangement, a, b, texts) },
    )?;
    Ok(())
}

// The first matches, as many as the limit lets.
fn limit(matches: &mut Vec<Match>, most: Option<u64>)
    ensures { matches.new.items ≡ arranged.limited most matches.old.items }
{
    if let Some(most) = most {
        matches.truncate(most as usize);
    }
}

fn rows(alloc: Global, matches: Vec<Match>) -> Result<Vec<Row>, NoMemory>
    ensures { IfOk result (λ rows. rows.items ≡ map (λ m. m.row) matches.items) }
{
    Ok(matches.into_iter().map(|m| m.into_row()).collect(alloc)?)
}

// With DISTINCT leaves one match for each row.
fn keep(matches: &mut Vec<Match>, distinct: bool, texts: &Texts) -> Result<(), NoMemory>
    ensures { OnOk result (matches.new.items ≡ (if distinct then dedup (has_row texts.now) (in_order (before_by (rows_order texts.now)) matches.old.items) else matches.old.items)) }
{
    if distinct {
        sort_by_rows(matches, texts)?;
        drop_doubles(matches, texts);
    }
    Ok(())
}

// Leaves the matches that have a row in the answer, in their order.
fn arrange(
    matches: &mut Vec<Match>,
    arrangement: &Arrangement,
    texts: &Texts,
) -> Result<(), NoMemory>
    ensures { OnOk result (matches.new.items ≡ in_order (before_by (match_order texts.now arrangement.now)) (arranged.kept texts.now arrangement.now.distinct matches.old.items)) }
{
    keep(matches, arrangement.distinct(), texts)?;
    sort(matches, arrangement, texts)
}

/// The rows of the matches, in the order of an answer: exactly `rows_of`. It takes O(n log n) comparisons of
/// matches.
pub fn rows_in_order(
    alloc: Global,
    matches: Vec<Match>,
    arrangement: &Arrangement,
    texts: &Texts,
) -> Result<Vec<Row>, NoMemory>
    ensures { IfOk result (λ rows. rows.items ≡ rows_of texts.now arrangement.now matches.items) }
{
    let mut kept = matches;
    arrange(&mut kept, arrangement, texts)?;
    limit(&mut kept, arrangement.most());
    rows(alloc, kept)
}
