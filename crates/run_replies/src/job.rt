//! What a run is given: all that its files say.
ghost use Rattle.std.specs.Prelude.{◌≡◌, IfOk, IfSome, length};
ghost use Rattle.graph_tables.specs.Graph.{IsWhole};
ghost use Rattle.partition.specs.Owners.{IsOwner};
ghost use Rattle.run_replies.specs.Given.{IsGiven, job_seen};
ghost use Rattle.run_replies.specs.Outcome.{job_of, job_of_graph, job_of_owner};
ghost use Rattle.run_replies.specs.Parts.{PartGives};
ghost use Rattle.run_replies.specs.Reaching.{IsFile, JobReaches, RestReaches};
ghost use Rattle.run_replies.specs.Stores.{ReadsFiles};
ghost use Rattle.run_replies.specs.declared.load.TheConstants.{QUERY_FILE};

use crate::load::{Queries, load_owner, load_queries, load_tables};
use adfs_base::Store;
use graph_tables::Graph;
use partition::Owner;
use run_status::Status;
use run_trace::Header;
use std::alloc::Global;

/// A graph, who owns its vertices, and the queries that are asked over it.
#[derive(Drop)]
pub struct Given {
    pub graph: Graph,
    pub owner: Owner,
    pub queries: Queries,
}

// With the queries, where graph and owner were loaded.
fn load_last<S: Store>(
    alloc: Global,
    store: &mut S,
    header: &Header,
    graph: Graph,
    owner: Owner,
) -> Result<Given, Status>
    requires whole { IsWhole graph }
    requires owner { IsOwner owner (length graph.vertices) header.now.machines }
    ensures gives { IfSome (S.files store.old) (λ files. PartGives job_seen result (job_of_owner files header.now graph owner)) }
    ensures given { IfOk result (IsGiven header.now) }
    ensures reads { ReadsFiles (IsFile QUERY_FILE) (S.files store.old, S.faults store.old, S.misses store.old) (S.files store.new, S.faults store.new, S.misses store.new) result }
{
    match load_queries(alloc, store, header.queries.text()) {
        Ok(queries) => Ok(Given {
            graph,
            owner,
            queries,
        }),
        Err(status) => Err(status),
    }
}

// With the owner and the queries, where the graph was loaded.
fn load_rest<S: Store>(
    alloc: Global,
    store: &mut S,
    header: &Header,
    graph: Graph,
) -> Result<Given, Status>
    requires { IsWhole graph }
    ensures gives { IfSome (S.files store.old) (λ files. PartGives job_seen result (job_of_graph files header.now graph)) }
    ensures given { IfOk result (IsGiven header.now) }
    ensures reads { ReadsFiles (RestReaches header.now graph) (S.files store.old, S.faults store.old, S.misses store.old) (S.files store.new, S.faults store.new, S.misses store.new) result }
{
    match load_owner(alloc, store, header, &graph) {
        Ok(owner) => load_last(alloc, store, header, graph, owner),
        Err(status) => Err(status),
    }
}

/// All that a run is given: the graph of the tables, then who owns its vertices, then the queries.
pub fn load_given<S: Store>(alloc: Global, store: &mut S, header: &Header) -> Result<Given, Status>
    ensures gives { IfSome (S.files store.old) (λ files. PartGives job_seen result (job_of files header.now)) }
    ensures given { IfOk result (IsGiven header.now) }
    ensures reads { ReadsFiles (JobReaches header.now) (S.files store.old, S.faults store.old, S.misses store.old) (S.files store.new, S.faults store.new, S.misses store.new) result }
{
    match load_tables(alloc, store, header.manifest.text()) {
        Ok(graph) => load_rest(alloc, store, header, graph),
        Err(status) => Err(status),
    }
}
