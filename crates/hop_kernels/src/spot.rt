//! Elements of a part, and what is read of them.
ghost use Rattle.std.specs.Prelude.{◌≡◌, ◌<◌, IsSome, IfSome, length};
ghost use Rattle.plan_tree.specs.Answers as answers;
ghost use Rattle.hop_kernels.specs.Spots.{AreNumbered, element_at, element_in};

use element_store::Row;
use partition::Part;

/// Where an element stands in a part: a vertex by its place, or an edge by its number in a list of the vertex at a
/// place.
#[derive(Clone, Copy)]
pub(crate) enum Spot {
    Vertex(u32),
    Edge { place: u32, out: bool, number: u32 },
}

/// The place of the vertex for which a word stands.
pub(crate) fn place_in(part: &Part, word: u64) -> Option<u32>
    requires { AreNumbered part.now }
    ensures place { result ≡ answers.place_in part.now word }
    ensures within { IfSome result (λ place. place < length part.now.vertices) }
{
    if word < u64::from(part.graph_vertices()) {
        part.place_of(word as u32)
    } else {
        None
    }
}

/// The row of an element.
#[inline]
pub(crate) fn row_of(part: &Part, spot: Spot) -> Row<'_>
    requires { IsSome (element_at part.now spot) }
    ensures { result.1 ≡ (element_in part.now spot).values }
{
    match spot {
        Spot::Vertex(place) => part.vertex_row(place),
        Spot::Edge { place, out, number } => part.entry_row(place, out, number),
    }
}

/// The key of an element.
pub(crate) fn key_of(part: &Part, spot: Spot) -> i64
    requires { IsSome (element_at part.now spot) }
    ensures { result ≡ (element_in part.now spot).key }
{
    match spot {
        Spot::Vertex(place) => part.vertex_key(place),
        Spot::Edge { place, out, number } => part.entry(place, out, number).key,
    }
}

/// The number of the label of an element.
pub(crate) fn label_of(part: &Part, spot: Spot) -> u32
    requires { IsSome (element_at part.now spot) }
    ensures { result ≡ (element_in part.now spot).label }
{
    match spot {
        Spot::Vertex(place) => part.vertex_label(place),
        Spot::Edge { place, out, number } => part.link(place, out, number).label,
    }
}
