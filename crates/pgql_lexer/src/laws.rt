//! What holds of the definitions that the contracts cite.

ghost use Rattle.pgql_lexer.specs.Laws.{CommentsEndAtTheFirstClose, LiteralsEndAtTheFirstLoneQuote, MarksCutTheText, TokensCutTheText};

/// A comment ends after the first `*/` after its `/*`, and is open where there is none.
///
/// A law; there is nothing to call it for.
pub fn comments_end_at_the_first_close()
    ensures { CommentsEndAtTheFirstClose }
{}

/// A literal ends after the first quote that isn't doubled, and is open where there is none.
///
/// A law; there is nothing to call it for.
pub fn literals_end_at_the_first_lone_quote()
    ensures { LiteralsEndAtTheFirstLoneQuote }
{}

/// A text has the tokens into which it is cut, with gaps between them, each the longest at its place.
///
/// A law; there is nothing to call it for.
pub fn tokens_cut_the_text()
    ensures { TokensCutTheText }
{}

/// The marks by which a file is cut are those of its semicolons, its gaps, and what else there is, each literal
/// and each comment as a whole.
///
/// A law; there is nothing to call it for.
pub fn marks_cut_the_text()
    ensures { MarksCutTheText }
{}
