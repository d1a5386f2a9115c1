//! Which hop comes next.
ghost use Rattle.std.specs.Prelude.{◌≡◌, ◌+◌, ◌*◌, ◌<◌, ◌≤◌, ◌^◌, ℕ, IfOk, MatchOption, None, Some, length, remove, slice_index_or};
ghost use Rattle.std.specs.List.{AllByRecursion};
ghost use Rattle.typed_expr.specs.declared.query.EdgeJoin.{EdgeJoin};
ghost use Rattle.stage_plan.specs.Front.{AreThere, after_edge, bound_end, turned, way_along, with_bound};
ghost use Rattle.stage_plan.specs.Hops.{first_front, hops_through, next_hop};
ghost use Rattle.stage_plan.specs.Rules.{IsFound, passes};

use crate::hop::Hop;
use adfs_base::NoMemory;
use std::alloc::Global;
use std::marker::Model;
use typed_expr::EdgeJoin;

/// Which edges come first: those that close, then those that reach, then those that touch.
#[derive(Clone, Copy)]
pub(crate) enum Rule {
    Closes,
    Reaches,
    Touches,
}

/// What is bound, where one stands, and the edges that are left. A contract sees it as a `Front`.
#[derive(Drop)]
pub(crate) struct Planner {
    bound: Vec<bool>,
    current: u32,
    left: Vec<EdgeJoin>,
}

impl Model for Planner {
    ghost use Rattle.stage_plan.specs.Front.{Front, IsFront};

    ghost Value = { Front };

    ghost view = { λ p. record { bound = p.bound.items; current = p.current; left = p.left.items } };

    ghost invariant = { λ p. IsFront (record { bound = p.bound.items; current = p.current; left = p.left.items }) };
}

impl Planner {
    // Whether the edge at a place comes first by the rule.
    fn passes(&self, rule: Rule, at: usize) -> bool
        requires { at < length self.now.left }
        ensures { (d : EdgeJoin) → result ≡ passes rule self.now (slice_index_or self.now.left at d) }
    {
        let edge = self.left[at];
        let near = edge.source == self.current || edge.target == self.current;
        let source = self.bound[edge.source as usize];
        let target = self.bound[edge.target as usize];
        match rule {
            Rule::Closes => near && (source && target),
            Rule::Reaches => near,
            Rule::Touches => source || target,
        }
    }

    // The place of the first edge by the rule.
    fn find(&self, rule: Rule) -> Option<usize>
        ensures { IsFound (passes rule self.now) self.now.left result }
    {
        for at in 0..self.left.len() {
            if self.passes(rule, at) {
                return Some(at);
            }
        }
        None
    }

    // Takes the edge at a place out and goes along it: whether out, its variable, and where one then is.
    fn walk(&mut self, at: usize) -> (bool, u32, u32)
        requires { at < length self.old.left }
        ensures walk { (d : EdgeJoin) → result ≡ way_along (slice_index_or self.old.left at d) self.old.current }
        ensures after { (d : EdgeJoin) → self.new ≡ after_edge self.old (slice_index_or self.old.left at d, remove self.old.left at) }
        ensures there { result.2 < length self.new.bound }
    {
        let edge = self.left.remove(at);
        let out = edge.source == self.current;
        let to = if out { edge.target } else { edge.source };
        self.bound[edge.edge as usize] = true;
        self.current = to;
        (out, edge.edge, to)
    }

    // The end of an edge that is bound, its source where both are.
    fn end(&self, at: usize) -> u32
        requires { at < length self.now.left }
        ensures { (d : EdgeJoin) → result ≡ bound_end self.now (slice_index_or self.now.left at d) }
    {
        let edge = self.left[at];
        if self.bound[edge.source as usize] {
            edge.source
        } else {
            edge.target
        }
    }

    fn bind(&mut self, variable: u32)
        requires { variable < length self.old.bound }
        ensures { self.new ≡ with_bound self.old variable }
    {
        self.bound[variable as usize] = true;
    }

    fn turn(&mut self, variable: u32)
        ensures { self.new ≡ turned self.old variable }
    {
        self.current = variable;
    }

    // The next hop, or nothing where no edge that is left has a bound end.
    fn next_hop(&mut self) -> Option<Hop>
        ensures { MatchOption result (next_hop self.old ≡ None) (λ hop. next_hop self.old ≡ Some (hop, self.new)) }
    {
        if let Some(at) = self.find(Rule::Closes) {
            let (out, edge, to) = self.walk(at);
            return Some(Hop::Edge { out, edge, to });
        }
        if let Some(at) = self.find(Rule::Reaches) {
            let (out, edge, to) = self.walk(at);
            self.bind(to);
            return Some(Hop::Neighbour { out, edge, to });
        }
        if let Some(at) = self.find(Rule::Touches) {
            let end = self.end(at);
            self.turn(end);
            return Some(Hop::Inspect(end));
        }
        None
    }

    // At the first of so many variables.
    fn new(alloc: Global, variables: usize, edges: &[EdgeJoin]) -> Result<Planner, NoMemory>
        requires some { 0 < variables }
        requires named { AllByRecursion (AreThere variables) edges.now }
        ensures { IfOk result (λ planner. planner ≡ first_front variables edges.now) }
    {
        let mut bound = vec![in alloc; false; variables]?;
        bound[0] = true;
        let left = Vec::from_slice(alloc, edges)?;
        Ok(Planner {
            bound,
            current: 0,
            left,
        })
    }
}

/// The hops through a pattern of so many variables.
pub(crate) fn hops_of(
    alloc: Global,
    variables: usize,
    edges: &[EdgeJoin],
) -> Result<Vec<Hop>, NoMemory>
    requires some { 0 < variables }
    requires few { length edges.now < 2 ^ 32 }
    requires named { AllByRecursion (AreThere variables) edges.now }
    ensures { IfOk result (λ hops. hops.items ≡ hops_through variables edges.now) }
{
    let mut planner = Planner::new(alloc, variables, edges)?;
    let mut hops = Vec::new(alloc);
    hops.push(Hop::Root(0))?;
    for _turn in 0..2 * edges.len() + 1 {
        match planner.next_hop() {
            Some(hop) => hops.push(hop)?,
            None => {
                hops.push(Hop::Output)?;
                return Ok(hops);
            }
        }
    }
    hops.push(Hop::Output)?;
    Ok(hops)
}
