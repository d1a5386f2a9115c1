//! The leaves of a fan, by plain counting: how many there are, and which of them a row is.
use crate::tree::Fan;
use adfs_base::NoMemory;
use match_context::Context;
use std::alloc::Global;

/// The children of a context before the last stage.
fn children(fan: &Fan) -> u64 {
    fan.places.div_ceil(u64::from(fan.skips) + 1)
}

/// The roots of the machines before one.
fn roots_before(fan: &Fan, machine: u64) -> u64 {
    if machine == 0 {
        return 0;
    }
    fan.first
        .saturating_add(fan.others.saturating_mul(machine.saturating_sub(1)))
}

/// How many leaves there are.
pub fn count(fan: &Fan) -> u64 {
    let mut count = roots_before(fan, u64::from(fan.machines));
    for _ in 1..fan.stages {
        count = count.saturating_mul(children(fan));
    }
    count
}

/// How many events a run may have at most: what each answer, each child and each root weighs, and what closing takes.
pub fn work(fan: &Fan, workers: u32) -> u64 {
    let mut below: u64 = 2;
    for _ in 1..fan.stages {
        let each = below.saturating_add(12);
        below = children(fan)
            .saturating_mul(each)
            .saturating_add(fan.places)
            .saturating_add(1);
    }
    let machines = u64::from(fan.machines);
    let stages = u64::from(fan.stages);
    let later = stages.saturating_sub(1).saturating_mul(machines * machines);
    let marks = later.saturating_add(machines).saturating_add(1);
    let closing = marks
        .saturating_mul(machines * u64::from(workers))
        .saturating_add(stages);
    roots_before(fan, machines)
        .saturating_mul(below.saturating_add(1))
        .saturating_add(closing)
}

/// The number of a root among those of all machines, where there is such a root.
fn root_number(fan: &Fan, row: &Context) -> Option<u64> {
    let machine = row.words[0];
    let place = row.words[1];
    let roots = if machine == 0 { fan.first } else { fan.others };
    if machine >= u64::from(fan.machines) || place >= roots {
        return None;
    }
    Some(roots_before(fan, machine).saturating_add(place))
}

/// The number of a child among its parent's, where it comes from a place that has one.
fn child_number(fan: &Fan, place: u64) -> Option<u64> {
    let period = u64::from(fan.skips) + 1;
    if place >= fan.places || place % period != 0 {
        return None;
    }
    Some(place / period)
}

/// The number of a row among the leaves, where it is one of them.
fn leaf_number(fan: &Fan, row: &Context) -> Option<u64> {
    let mut number = root_number(fan, row)?;
    let stages = fan.stages as usize;
    for (at, word) in row.words.iter().enumerate().skip(2) {
        if at <= stages {
            let child = child_number(fan, *word)?;
            number = number.saturating_mul(children(fan)).saturating_add(child);
        } else if *word != 0 {
            return None;
        }
    }
    Some(number)
}

/// Ticks a number off that wasn't yet, and says whether that could be done.
fn tick(seen: &mut [bool], number: u64) -> bool {
    match seen.get_mut(number as usize) {
        Some(mark) => !std::mem::replace(mark, true),
        None => false,
    }
}

/// Whether the rows are the leaves, each once.
pub fn are_leaves(alloc: Global, fan: &Fan, rows: &[Context]) -> Result<bool, NoMemory> {
    if rows.len() as u64 != count(fan) {
        return Ok(false);
    }
    let mut seen = Vec::with_capacity(alloc, rows.len())?;
    for _ in rows {
        seen.push(false)?;
    }
    Ok(all_ticked(fan, rows, &mut seen))
}

fn all_ticked(fan: &Fan, rows: &[Context], seen: &mut [bool]) -> bool {
    for row in rows {
        let ticked = match leaf_number(fan, row) {
            Some(number) => tick(seen, number),
            None => false,
        };
        if !ticked {
            return false;
        }
    }
    true
}
