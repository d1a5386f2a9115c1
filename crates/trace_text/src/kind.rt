//! The kinds of events, by the word with which their line begins.
ghost use Rattle.std.specs.Prelude.{◌≡◌};
ghost use Rattle.trace_text.specs.Kinds.{kind_named, word_of};

/// What an event does.
#[derive(Clone, Copy)]
pub(crate) enum Kind {
    Claim,
    Retire,
    Advance,
    Descend,
    Append,
    Charge,
    Fetch,
    Post,
    Push,
    Pop,
    Pick,
    Restore,
    Discharge,
    Mark,
    Close,
}

// The commonest stand first.
const KINDS: [Kind; 15] = [
    Kind::Advance,
    Kind::Descend,
    Kind::Append,
    Kind::Charge,
    Kind::Fetch,
    Kind::Post,
    Kind::Push,
    Kind::Pop,
    Kind::Pick,
    Kind::Restore,
    Kind::Discharge,
    Kind::Claim,
    Kind::Mark,
    Kind::Retire,
    Kind::Close,
];

impl Kind {
    /// The first word of its line.
    pub(crate) fn word(self) -> &'static str
        ensures { result.now ≡ word_of self }
    {
        match self {
            Kind::Claim => "claim",
            Kind::Retire => "retire",
            Kind::Advance => "advance",
            Kind::Descend => "descend",
            Kind::Append => "append",
            Kind::Charge => "charge",
            Kind::Fetch => "fetch",
            Kind::Post => "post",
            Kind::Push => "push",
            Kind::Pop => "pop",
            Kind::Pick => "pick",
            Kind::Restore => "restore",
            Kind::Discharge => "discharge",
            Kind::Mark => "mark",
            Kind::Close => "close",
        }
    }
}

/// The kind whose word this is.
pub(crate) fn kind_named(word: &[u8]) -> Option<Kind>
    ensures { result ≡ kind_named word.now }
{
    KINDS
        .iter()
        .copied()
        .find(|kind| kind.word().as_bytes() == word)
}
