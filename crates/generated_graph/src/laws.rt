//! What holds of every seed.
ghost use Rattle.generated_graph.specs.Loading.{TablesLoad};

/// The tables of a seed load, however many vertices and edges there are.
pub fn tables_load()
    ensures { TablesLoad }
{}
