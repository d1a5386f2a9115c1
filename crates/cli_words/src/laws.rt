//! What holds of the definitions that the contracts cite.
ghost use Rattle.cli_words.specs.Laws.{RefusalsComeFirst};

/// The place at which words are refused is that of the first word with which no command line goes on.
///
/// Whatever follows the word at that place, it is no command line; and the words before it are the front of
/// one. Where words are missing, the place is their number.
pub fn refusals_come_first()
    ensures { RefusalsComeFirst }
{}
