//! The two kinds of elements.
ghost use Rattle.std.specs.Prelude.{◌≡◌};
ghost use Rattle.graph_tables.specs.Headers.{key_columns};

/// What the elements of a table are.
#[derive(Clone, Copy, Debug, PartialEq, Eq)]
pub enum ElementKind {
    Vertex,
    Edge,
}

/// How many columns of a table are no properties.
pub fn key_count(of: ElementKind) -> usize
    ensures { result ≡ key_columns of }
{
    match of {
        ElementKind::Vertex => 1,
        ElementKind::Edge => 3,
    }
}
