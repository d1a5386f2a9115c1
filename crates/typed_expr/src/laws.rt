//! What holds of the trees that mean something.
ghost use Rattle.typed_expr.specs.Laws.{SameApartFromPlaces, TreesHavePaths};

/// An order key has the expression of a select item exactly where the two are equal apart from places.
pub fn same_apart_from_places()
    ensures { SameApartFromPlaces }
{}

/// The tree of a text has a path. So the query that it means is well formed.
pub fn trees_have_paths()
    ensures { TreesHavePaths }
{}
