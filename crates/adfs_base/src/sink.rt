//! The outside that takes bytes.
ghost use Rattle.std.specs.Prelude.{◌≡◌, ◌≤◌, List, ℕ, Option};
ghost use Rattle.adfs_base.specs.Counts.{Rose};
ghost use Rattle.adfs_base.specs.Bytes.{took, with_piece, TookFront};

/// What a put answers.
#[derive(Clone, Copy, Debug, PartialEq, Eq)]
pub enum Put {
    /// The whole piece was taken.
    All,
    /// A front of the piece was taken, which may be empty.
    Failed,
}

/// A taker of bytes.
pub trait Sink {
    /// The bytes that were taken so far, where the sink tells them.
    ghost held: { Self → Option (List ℕ) };

    /// The pieces that were taken whole, one for each put, where the sink tells them.
    ghost pieces: { Self → Option (List (List ℕ)) };

    /// How often a put has failed.
    ghost faults: { Self → ℕ };

    /// Takes the whole piece, or fails and takes a front of it.
    fn put(&mut self, bytes: &[u8]) -> Put
        ensures faults { faults self.old ≤ faults self.new }
        ensures all { result ≡ Put.All → held self.new ≡ took (held self.old) bytes.now }
        ensures piece { result ≡ Put.All → pieces self.new ≡ with_piece (pieces self.old) bytes.now }
        ensures pieces { result ≡ Put.Failed → pieces self.new ≡ pieces self.old }
        ensures front { result ≡ Put.Failed → TookFront (held self.old) bytes.now (held self.new) }
        ensures failed { result ≡ Put.Failed → Rose (faults self.old) (faults self.new) };
}
