//! What is read of what was written.
ghost use Rattle.trace_text.specs.Laws.{HeadersAreReadAgain};

/// The lines of a header are read as that header, whatever follows them in the text.
pub fn headers_are_read_again()
    ensures { HeadersAreReadAgain }
{}
