//! The first query of a file, with the graph over which it is asked.
ghost use Rattle.std.specs.Prelude.{◌≡◌, IfOk};
ghost use Rattle.graph_tables.specs.Graph.{IsWhole};
ghost use Rattle.run_replies.specs.Firsts as spec;
ghost use Rattle.run_replies.specs.Firsts.{IsFirst, IsFirstVerdict};
ghost use Rattle.run_replies.specs.Given.{AreQueries, job_seen};

use crate::job::Given;
use crate::load::Queries;
use adfs_base::NoMemory;
use graph_tables::{Graph, Schema};
use partition::Owner;
use query_replies::{Verdict, piece_of, read_query};
use stage_plan::Plan;
use std::alloc::Global;
use typed_query::Query;
use value_text::Texts;

/// A query, and all that the tree of its plan is made of.
#[derive(Drop)]
pub struct Asking {
    pub graph: Graph,
    pub owner: Owner,
    pub query: Query,
    pub plan: Plan,
}

/// What the first query of a file comes to.
#[derive(Drop)]
pub enum First {
    /// There is no query.
    Absent,
    /// It is refused by this line.
    Refused(Vec<u8>),
    /// It is asked.
    Asked(Asking),
}

// What comes of the first query.
fn verdict_on(
    alloc: Global,
    schema: &Schema,
    texts: &mut Texts,
    queries: &Queries,
) -> Result<Option<Verdict>, NoMemory>
    requires { AreQueries queries.now }
    ensures { IfOk result (IsFirstVerdict schema.now queries.now.text.items queries.now.places.items texts.old texts.new) }
{
    match queries.places.split_first() {
        Some((place, _later)) => {
            let text = piece_of(&queries.text, place);
            let verdict = read_query(alloc, schema, texts, 1, text, place.0)?;
            Ok(Some(verdict))
        }
        None => Ok(None),
    }
}

fn first_of(verdict: Option<Verdict>, graph: Graph, owner: Owner) -> First
    ensures { result ≡ spec.first_of verdict graph owner }
{
    match verdict {
        Some(Verdict::Accepted(query, plan)) => First::Asked(Asking {
            graph,
            owner,
            query,
            plan,
        }),
        Some(Verdict::Refused(line)) => First::Refused(line),
        None => First::Absent,
    }
}

/// The first query of what a run is given, and the texts with those of its literals.
pub fn read_first(alloc: Global, given: Given) -> Result<(First, Texts), NoMemory>
    requires whole { IsWhole given.graph }
    requires asked { AreQueries given.queries }
    ensures { IfOk result (λ found. IsFirst (job_seen given) (job_seen given).places found.1 found.0) }
{
    let Given {
        mut graph,
        owner,
        queries,
    } = given;
    let (schema, mut texts) = graph.detach();
    match verdict_on(alloc, &schema, &mut texts, &queries) {
        Ok(verdict) => Ok((first_of(verdict, graph, owner), texts)),
        Err(_) => Err(NoMemory),
    }
}
