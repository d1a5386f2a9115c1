//! A plan over the parts of all machines, as a staged tree.
ghost use Rattle.std.specs.Prelude.{◌≡◌, ◌<◌, ◌≤◌, ◌^◌, length, slice_index};
ghost use Rattle.std.specs.List.{AllByRecursion};
ghost use Rattle.adfs_base.specs.declared.limits.TheConstants.{CONTEXT_WORDS};
ghost use Rattle.match_context.specs.Tree.{IsTree};
ghost use Rattle.typed_expr.specs.WellFormed.{IsWellFormed};
ghost use Rattle.stage_plan.specs.Plans.{plan_of, words_of};
ghost use Rattle.plan_tree.specs.PlanTree as over;
ghost use Rattle.plan_tree.specs.PlanTree.{tree_of};
ghost use Rattle.hop_kernels.specs.Fitting.{HasRoom, StageFits};
ghost use Rattle.std.proofs.Props.{props};
ghost use Rattle.hop_kernels.specs.LabelTests.{AreTests};
ghost use Rattle.hop_kernels.specs.Over.{AreParts, tree_over};
ghost use Rattle.hop_kernels.specs.Props.{AreNumbered-prop, AreRising-prop, IsTree-prop, StagesFit-prop};
ghost use Rattle.hop_kernels.specs.Spots.{AreNumbered, AreRising};

use crate::ground::Ground;
use crate::kernel::next;
use crate::labels::{LabelTest, MOST_VARIABLES, label_tests};
use crate::seek::seek;
use adfs_base::CONTEXT_WORDS;
use match_context::{Context, Expand, Found, Frame, Next};
use partition::Part;
use stage_plan::Plan;
use typed_expr::Query;
use value_text::Texts;

/// A query's plan over the parts of a graph.
///
/// What its fields keep: the parts number their vertices and have their lists in order, each stage names what the query has, a context has room for
/// the query's matches, and children and rows come where a staged tree has them.
#[derive(Drop)]
pub struct PlanTree<'a> {
    parts: Vec<Part>,
    plan: Plan,
    query: Query,
    texts: &'a Texts,
    tests: [LabelTest; MOST_VARIABLES],
    ghost tests_are: { AreTests texts.now query tests } by { Prim.hlevel props },
    ghost few: { length parts.items < 2 ^ 32 },
    ghost numbered: { AllByRecursion AreNumbered parts.items } by { AreNumbered-prop parts.items },
    ghost rising: { AllByRecursion AreRising parts.items } by { AreRising-prop parts.items },
    ghost room: { HasRoom query },
    ghost fits: { AllByRecursion (StageFits query) plan.stages } by { StagesFit-prop query plan.stages },
    ghost a_tree: { IsTree (tree_over texts.now query plan parts.items) } by { IsTree-prop (tree_over texts.now query plan parts.items) },
}

// The context of the first variable alone, which stands for the vertex of this number.
fn root_of(number: u32) -> Context
    ensures { result ≡ over.root_of number }
{
    let mut words = [0; CONTEXT_WORDS as usize];
    words[1] = u64::from(number);
    Context { words }
}

// The root of the vertex at a place of a part.
fn root_at(part: &Part, place: u64) -> Context
    requires numbered { AreNumbered part.now }
    requires there { place < length part.now.numbers }
    ensures { result ≡ over.root_of (slice_index part.now.numbers place) }
{
    // What it promises keeps the place within 32 bits.
    let _vertices = part.vertices();
    let (number, _, _) = part.vertex(place as u32);
    root_of(number)
}

impl<'a> PlanTree<'a> {
    ghost use Rattle.hop_kernels.specs.PlanTrees.{over_of};

    /// The plan of a query over the parts of a graph, one for each machine.
    pub fn new(parts: Vec<Part>, plan: Plan, query: Query, texts: &'a Texts) -> PlanTree<'a>
        requires plan { plan ≡ plan_of query }
        requires well { IsWellFormed query }
        requires room { words_of query ≤ CONTEXT_WORDS }
        requires parts { AreParts parts.items }
        ensures over { over_of result ≡ record { texts = texts.now; query = query; plan = plan; parts = parts.items } }
    {
        let tests = label_tests(&query, texts);
        PlanTree {
            parts,
            plan,
            query,
            texts,
            tests,
        }
    }

    /// What the tree was made of.
    pub fn take_apart(self) -> (Vec<Part>, Plan, Query)
        ensures parts { result.0.items ≡ (over_of self.entry).parts }
        ensures plan { result.1 ≡ (over_of self.entry).plan }
        ensures query { result.2 ≡ (over_of self.entry).query }
    {
        let PlanTree {
            parts,
            plan,
            query,
            texts: _,
            tests: _,
        } = self;
        (parts, plan, query)
    }

    /// The query whose plan it is.
    pub fn query(&self) -> &Query
        ensures { result.now ≡ (over_of self.now).query }
    {
        &self.query
    }
}

impl Expand for PlanTree<'_> {
    ghost use Rattle.hop_kernels.specs.PlanTrees.{over_of};

    ghost tree = { λ x. tree_of (over_of x) };

    fn stages(&self) -> u32 {
        self.plan.stages()
    }

    fn machines(&self) -> u32 {
        self.parts.len() as u32
    }

    fn roots(&self, machine: u32) -> u64 {
        u64::from(self.parts[machine as usize].vertices())
    }

    fn root(&self, machine: u32, place: u64) -> Context {
        root_at(&self.parts[machine as usize], place)
    }

    fn next(&self, machine: u32, frame: &mut Frame) -> Next {
        let ground = Ground {
            texts: self.texts,
            query: &self.query,
            part: &self.parts[machine as usize],
            tests: &self.tests,
        };
        let stage = &self.plan.list()[frame.stage as usize];
        next(&ground, stage, &mut frame.context, &mut frame.place)
    }

    fn seek(&self, machine: u32, frame: &mut Frame) -> (u64, Found) {
        let ground = Ground {
            texts: self.texts,
            query: &self.query,
            part: &self.parts[machine as usize],
            tests: &self.tests,
        };
        let stage = &self.plan.list()[frame.stage as usize];
        seek(&ground, stage, frame)
    }

    ghost lawful = { λ x. x.a_tree };
}
