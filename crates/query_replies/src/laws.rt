//! What the definitions of replies come to.
ghost use Rattle.query_replies.specs.Laws.{AnswersAreOne};

/// The queries of a file have one answer: what is put for them is one text, whoever gives it.
pub fn answers_are_one()
    ensures { AnswersAreOne }
{}
