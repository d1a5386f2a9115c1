//! What is known on the way through a pattern.
ghost use Rattle.std.specs.Prelude.{◌≡◌, ◌<◌, ◌^◌, ◌++◌, IfOk, OnOk, length, slice_get};
ghost use Rattle.std.specs.List.{range_with_len};
ghost use Rattle.typed_expr.specs.Parts.{captures};
ghost use Rattle.stage_plan.specs.Walk as spec;

use crate::hop::Hop;
use crate::numbers::Numbers;
use crate::stage::{Gains, Stage};
use adfs_base::NoMemory;
use std::alloc::Global;
use std::marker::Model;
use typed_expr::{Capture, Expr, Query};

// Whether the capture of this place is known, if it is there.
fn is_known(captures: &[Capture], known: &[bool], place: u32) -> bool
    ensures { result ≡ spec.is_known known.now (slice_get captures.now place) }
{
    match captures.get(place as usize) {
        Some(capture) => match known.get(capture.variable as usize) {
            Some(is_known) => *is_known,
            None => false,
        },
        None => true,
    }
}

// Whether each capture that the expression uses is known.
fn is_ready(expr: &Expr, captures: &[Capture], known: &[bool]) -> bool
    ensures { result ≡ spec.is_ready captures.now known.now expr.now }
{
    match expr {
        Expr::Constant(_) => true,
        Expr::Captured(place) => is_known(captures, known, *place),
        Expr::Not(inside) => is_ready(inside.get(), captures, known),
        Expr::Neg(inside) => is_ready(inside.get(), captures, known),
        Expr::IsNull(inside, _) => is_ready(inside.get(), captures, known),
        Expr::Binary(_, left, right) => {
            is_ready(left.get(), captures, known) && is_ready(right.get(), captures, known)
        }
    }
}

// Whether the conjunct of this number can be tested.
fn is_whole(query: &Query, known: &[bool], number: u32) -> bool
    ensures { result ≡ spec.is_whole query.now known.now number }
{
    match query.conjuncts.as_slice().get(number as usize) {
        Some(conjunct) => is_ready(conjunct, query.captures.as_slice(), known),
        None => true,
    }
}

// The conjuncts that can be tested.
fn whole(alloc: Global, query: &Query, known: &[bool], waiting: &[u32]) -> Result<Numbers, NoMemory>
    ensures { IfOk result (λ found. found ≡ spec.whole query.now known.now waiting.now) }
{
    let mut found = Numbers::new(alloc);
    let mut rest = waiting;
    while let Some((number, others)) = rest.split_first() {
        if is_whole(query, known, *number) {
            found.push(*number)?;
        }
        rest = others;
    }
    Ok(found)
}

// And the others.
fn still_waiting(
    alloc: Global,
    query: &Query,
    known: &[bool],
    waiting: &[u32],
) -> Result<Vec<u32>, NoMemory>
    ensures { IfOk result (λ found. found.items ≡ spec.still_waiting query.now known.now waiting.now) }
{
    let mut found = Vec::with_capacity(alloc, waiting.len())?;
    let mut rest = waiting;
    while let Some((number, others)) = rest.split_first() {
        if !is_whole(query, known, *number) {
            found.push(*number)?;
        }
        rest = others;
    }
    Ok(found)
}

// Adds the places of the captures that an expression uses.
fn add_uses(expr: &Expr, found: &mut Numbers) -> Result<(), NoMemory>
    ensures { OnOk result (found.new ≡ found.old ++ captures expr.now) }
{
    match expr {
        Expr::Constant(_) => Ok(()),
        Expr::Captured(place) => found.push(*place),
        Expr::Not(inside) => add_uses(inside.get(), found),
        Expr::Neg(inside) => add_uses(inside.get(), found),
        Expr::IsNull(inside, _) => add_uses(inside.get(), found),
        Expr::Binary(_, left, right) => {
            add_uses(left.get(), found)?;
            add_uses(right.get(), found)
        }
    }
}

// Adds those of the conjunct of this number.
fn add_uses_at(query: &Query, number: u32, found: &mut Numbers) -> Result<(), NoMemory>
    ensures { OnOk result (found.new ≡ found.old ++ captures (spec.conjunct_at query.now number)) }
{
    match query.conjuncts.as_slice().get(number as usize) {
        Some(conjunct) => add_uses(conjunct, found),
        None => Ok(()),
    }
}

// The places of the captures that conjuncts use.
fn uses(alloc: Global, query: &Query, numbers: &[u32]) -> Result<Numbers, NoMemory>
    ensures { IfOk result (λ found. found ≡ spec.uses query.now numbers.now) }
{
    let mut found = Numbers::new(alloc);
    let mut rest = numbers;
    while let Some((number, others)) = rest.split_first() {
        add_uses_at(query, *number, &mut found)?;
        rest = others;
    }
    Ok(found)
}

// What is gained by captures and conjuncts.
fn gained(
    alloc: Global,
    query: &Query,
    captured: Numbers,
    conjuncts: Numbers,
) -> Result<Gains, NoMemory>
    ensures { IfOk result (λ gained. gained ≡ spec.gains_of query.now captured conjuncts) }
{
    let reads = uses(alloc, query, conjuncts.as_slice())?;
    Ok(Gains {
        captures: captured,
        conjuncts,
        reads,
    })
}

// The places of a variable's captures.
fn captures_of(alloc: Global, query: &Query, variable: u32) -> Result<Numbers, NoMemory>
    requires { length query.now.captures < 2 ^ 32 }
    ensures { IfOk result (λ places. places ≡ spec.captures_of query.now variable) }
{
    let mut places = Numbers::new(alloc);
    let mut place: u32 = 0;
    let mut rest = query.captures.as_slice();
    while let Some((capture, others)) = rest.split_first() {
        if capture.variable == variable {
            places.push(place)?;
        }
        place += 1;
        rest = others;
    }
    Ok(places)
}

fn captures_of_any(alloc: Global, query: &Query, variable: Option<u32>) -> Result<Numbers, NoMemory>
    requires { length query.now.captures < 2 ^ 32 }
    ensures { IfOk result (λ places. places ≡ spec.captures_of_any query.now variable) }
{
    match variable {
        Some(variable) => captures_of(alloc, query, variable),
        None => Ok(Numbers::new(alloc)),
    }
}

// The edge variable that a hop binds.
fn edge_of(hop: Hop) -> Option<u32>
    ensures { result ≡ spec.edge_of hop }
{
    match hop {
        Hop::Neighbour { edge, .. } => Some(edge),
        Hop::Edge { edge, .. } => Some(edge),
        Hop::Root(_) | Hop::Inspect(_) | Hop::Output => None,
    }
}

/// Of which variables the captures are known, where one stands, and what still waits to be tested.
#[derive(Drop)]
pub(crate) struct Walk {
    known: Vec<bool>,
    current: u32,
    arriving: Option<u32>,
    waiting: Vec<u32>,
}

impl Model for Walk {
    ghost use Rattle.stage_plan.specs.Walk.{Walk};

    ghost Value = { Walk };

    ghost view = { λ w. record { known = w.known.items; current = w.current; arriving = w.arriving; waiting = w.waiting.items } };
}

impl Walk {
    /// At the root, where no capture is known.
    pub(crate) fn new(alloc: Global, query: &Query, root: u32) -> Result<Walk, NoMemory>
        ensures { IfOk result (λ walk. walk ≡ spec.rooted query.now root) }
    {
        let known = vec![in alloc; false; query.variables.as_slice().len()]?;
        let waiting = all_conjuncts(alloc, query)?;
        Ok(Walk {
            known,
            current: root,
            arriving: Some(root),
            waiting,
        })
    }

    fn learn(&mut self, variable: Option<u32>)
        ensures { self.new ≡ record { known = spec.learned variable self.old.known; current = self.old.current; arriving = self.old.arriving; waiting = self.old.waiting } }
    {
        if let Some(variable) = variable {
            if (variable as usize) < self.known.len() {
                self.known[variable as usize] = true;
            }
        }
    }

    // What is gained where the captures of a variable, if there is one, become known.
    fn gain(
        &mut self,
        alloc: Global,
        query: &Query,
        variable: Option<u32>,
    ) -> Result<Gains, NoMemory>
        requires { length query.now.captures < 2 ^ 32 }
        ensures gains { IfOk result (λ gained. gained ≡ spec.gains query.now self.old variable) }
        ensures walk { OnOk result (self.new ≡ spec.with_gains query.now self.old variable) }
    {
        self.learn(variable);
        let waiting = still_waiting(alloc, query, &self.known, &self.waiting)?;
        let conjuncts = whole(alloc, query, &self.known, &self.waiting)?;
        self.waiting = waiting;
        let captured = captures_of_any(alloc, query, variable)?;
        gained(alloc, query, captured, conjuncts)
    }

    // What is gained along a hop that binds an edge, if it does.
    fn pass(&mut self, alloc: Global, query: &Query, edge: Option<u32>) -> Result<Gains, NoMemory>
        requires { length query.now.captures < 2 ^ 32 }
        ensures gains { IfOk result (λ gained. gained ≡ spec.passage query.now self.old edge) }
        ensures walk { OnOk result (self.new ≡ spec.passed query.now self.old edge) }
    {
        match edge {
            Some(edge) => self.gain(alloc, query, Some(edge)),
            None => gained(alloc, query, Numbers::new(alloc), Numbers::new(alloc)),
        }
    }

    fn stand(&mut self, current: u32, arriving: Option<u32>)
        ensures { self.new ≡ spec.stands self.old current arriving }
    {
        self.current = current;
        self.arriving = arriving;
    }

    fn go(&mut self, hop: Hop)
        ensures { self.new ≡ spec.led_by hop self.old }
    {
        match hop {
            Hop::Root(variable) => self.stand(variable, Some(variable)),
            Hop::Neighbour { to, .. } => self.stand(to, Some(to)),
            Hop::Edge { to, .. } => self.stand(to, None),
            Hop::Inspect(variable) => self.stand(variable, None),
            Hop::Output => self.stand(self.current, None),
        }
    }

    /// The stage at which a hop is taken. One has then taken it.
    pub(crate) fn stage(
        &mut self,
        alloc: Global,
        query: &Query,
        hop: Hop,
    ) -> Result<Stage, NoMemory>
        requires { length query.now.captures < 2 ^ 32 }
        ensures stage { IfOk result (λ stage. stage ≡ spec.stage_of query.now self.old hop) }
        ensures walk { OnOk result (self.new ≡ spec.walk_after query.now self.old hop) }
    {
        let arriving = self.arriving;
        let current = self.current;
        let arrival = self.gain(alloc, query, arriving)?;
        let passage = self.pass(alloc, query, edge_of(hop))?;
        self.go(hop);
        Ok(Stage {
            arriving,
            arrival,
            hop,
            current,
            passage,
        })
    }
}

// The numbers of all conjuncts. There is no memory for more than 32 bits can count.
fn all_conjuncts(alloc: Global, query: &Query) -> Result<Vec<u32>, NoMemory>
    ensures { IfOk result (λ numbers. numbers.items ≡ range_with_len 0 (length query.now.conjuncts)) }
{
    let count = match u32::try_from(query.conjuncts.as_slice().len()) {
        Ok(count) => count,
        Err(_) => return Err(NoMemory),
    };
    let mut numbers = Vec::with_capacity(alloc, count as usize)?;
    for number in 0..count {
        numbers.push(number)?;
    }
    Ok(numbers)
}
