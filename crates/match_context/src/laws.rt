//! The laws of bags, of weights and of rows.
ghost use Rattle.match_context.specs.Laws.{BagsArePermutations, RowsWeighAsLeaves, SumsInAnyOrder, WeightsFallByAnswers};

/// Two lists of contexts are the same bag exactly where one is the other in another order.
pub fn bags_are_permutations()
    ensures { BagsArePermutations }
{}

/// The sum over a bag may be taken in any order, and part by part.
pub fn sums_in_any_order()
    ensures { SumsInAnyOrder }
{}

/// Each answer takes its own weight out of its frame.
pub fn weights_fall_by_answers()
    ensures { WeightsFallByAnswers }
{}

/// Where rows alone weigh, a context weighs what its leaves do.
pub fn rows_weigh_as_leaves()
    ensures { RowsWeighAsLeaves }
{}
