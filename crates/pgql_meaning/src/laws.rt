//! What the definitions of an answer come to.
ghost use Rattle.pgql_meaning.specs.Laws.{AnswersAscend, LimitsComeLast, MatchesAscend, MatchesFit, RowsStandByAssignment, RowsStandOnce};

/// The matches of a query are exactly the assignments that give each variable a number of an element and fit.
pub fn matches_fit()
    ensures { MatchesFit }
{}

/// Each assignment stands once among the matches, and they ascend.
pub fn matches_ascend()
    ensures { MatchesAscend }
{}

/// The rows of an answer are those of matches, each of which comes before all that follow it: by the order keys, each in
/// its direction, and where those tie by the numbers of its elements, or with DISTINCT by its row.
pub fn answers_ascend()
    ensures { AnswersAscend }
{}

/// Without order keys and DISTINCT the rows stand in the order of their assignments.
pub fn rows_stand_by_assignment()
    ensures { RowsStandByAssignment }
{}

/// LIMIT leaves so many first rows of the answer without it.
pub fn limits_come_last()
    ensures { LimitsComeLast }
{}

/// With DISTINCT no row stands twice, and each row of a match stands in the answer before the limit.
pub fn rows_stand_once()
    ensures { RowsStandOnce }
{}
