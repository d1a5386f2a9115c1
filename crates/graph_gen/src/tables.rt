//! The manifest and the tables of a graph that follows from a seed.
ghost use Rattle.std.specs.Prelude.{◌≡◌, ℕ, ◌+◌, ◌*◌, ◌%◌, ◌<◌, ◌≤◌, ◌++◌, ◌∷◌, [], OnOk, IfOk};
ghost use Rattle.std.specs.Fmt.{decimal};
ghost use Rattle.seeded_draws.specs.Draws.{nth_draw, state_after};
ghost use Rattle.graph_gen.specs.Generated.{end_at, link_line, links_text, manifest_text, node_line, nodes_text, weight_at};

use adfs_base::NoMemory;
use seeded_draws::Draws;
use std::alloc::Global;

/// A manifest and its two tables, as files would hold them.
#[derive(Drop)]
pub struct Tables {
    /// Names `nodes.csv` and `links.csv`.
    pub manifest: Vec<u8>,
    /// The vertices of label `node`, with the property `w`.
    pub nodes: Vec<u8>,
    /// The edges of label `link`.
    pub links: Vec<u8>,
}

/// The tables of a seed: so many vertices with weights below 1,000, and so many edges between any two of them.
///
/// There are 1 to 200,000 vertices and at most 8 times as many edges, so the three texts together stay below 50 MB.
pub fn generate(alloc: Global, seed: u64, vertices: u64, edges: u64) -> Result<Tables, NoMemory>
    requires vertices { (1 ≤ vertices) × (vertices ≤ 200000) }
    requires edges { edges ≤ 8 * vertices }
    ensures manifest { IfOk result (λ tables. tables.manifest.items ≡ manifest_text) }
    ensures nodes { IfOk result (λ tables. tables.nodes.items ≡ nodes_text seed vertices) }
    ensures links { IfOk result (λ tables. tables.links.items ≡ links_text seed vertices edges) }
{
    let mut draws = Draws { state: seed };
    let nodes = nodes(alloc, &mut draws, vertices)?;
    let links = links(alloc, &mut draws, vertices, edges)?;
    let mut manifest = Vec::new(alloc);
    manifest.extend_from_slice(b"adfs 1\nvertices node nodes.csv\nedges link links.csv\n")?;
    Ok(Tables {
        manifest,
        nodes,
        links,
    })
}

// The vertices' table.
fn nodes(alloc: Global, draws: &mut Draws, vertices: u64) -> Result<Vec<u8>, NoMemory>
    requires { vertices ≤ 200000 }
    ensures text { IfOk result (λ nodes. nodes.items ≡ nodes_text draws.old.state vertices) }
    ensures state { OnOk result (draws.new.state ≡ state_after draws.old.state vertices) }
{
    let mut out = Vec::new(alloc);
    out.extend_from_slice(b"id:int,w:int\n")?;
    for place in 0..vertices {
        put_node(place + 1, draws.next() % 1000, &mut out)?;
    }
    Ok(out)
}

// The edges' table.
fn links(alloc: Global, draws: &mut Draws, vertices: u64, edges: u64) -> Result<Vec<u8>, NoMemory>
    requires vertices { (1 ≤ vertices) × (vertices ≤ 200000) }
    requires edges { edges ≤ 8 * vertices }
    ensures { (seed : ℕ) → draws.old.state ≡ state_after seed vertices → IfOk result (λ links. links.items ≡ links_text seed vertices edges) }
{
    let mut out = Vec::new(alloc);
    out.extend_from_slice(b"id:int,source:int,target:int\n")?;
    for place in 0..edges {
        let source = draws.next() % vertices + 1;
        let target = draws.next() % vertices + 1;
        put_link(place + 1, source, target, &mut out)?;
    }
    Ok(out)
}

fn put_node(key: u64, weight: u64, out: &mut Vec<u8>) -> Result<(), NoMemory>
    ensures { OnOk result (out.new.items ≡ out.old.items ++ (decimal key ++ 44 ∷ decimal weight ++ 10 ∷ [])) }
{
    put_number(key, out)?;
    put_next_number(weight, out)?;
    out.push(b'\n')?;
    Ok(())
}

fn put_link(key: u64, source: u64, target: u64, out: &mut Vec<u8>) -> Result<(), NoMemory>
    ensures { OnOk result (out.new.items ≡ out.old.items ++ (decimal key ++ 44 ∷ decimal source ++ 44 ∷ decimal target ++ 10 ∷ [])) }
{
    put_number(key, out)?;
    put_next_number(source, out)?;
    put_next_number(target, out)?;
    out.push(b'\n')?;
    Ok(())
}

// A comma and a number.
fn put_next_number(number: u64, out: &mut Vec<u8>) -> Result<(), NoMemory>
    ensures { OnOk result (out.new.items ≡ out.old.items ++ 44 ∷ decimal number) }
{
    out.push(b',')?;
    put_number(number, out)
}

fn put_number(number: u64, out: &mut Vec<u8>) -> Result<(), NoMemory>
    ensures { OnOk result (out.new.items ≡ out.old.items ++ decimal number) }
{
    let mut digits = itoa::Buffer::new();
    out.extend_from_slice(digits.format(number).as_bytes())?;
    Ok(())
}
