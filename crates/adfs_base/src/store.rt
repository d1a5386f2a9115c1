//! The outside that gives files.
ghost use Rattle.std.specs.Prelude.{◌≡◌, ◌≢◌, ◌≤◌, ◌+◌, [], ℕ, Option, length};
ghost use Rattle.adfs_base.specs.Counts.{Rose};
ghost use Rattle.adfs_base.specs.Files.{Files, Reads, Lacks};

/// What a load answers.
#[derive(Clone, Copy, Debug, PartialEq, Eq)]
pub enum Loaded {
    /// The file was read to its end, or until it was seen to be too long.
    Whole,
    /// There is no file of that name.
    Missing,
    /// The file is there, as far as the store knows, and could not be read.
    Failed,
    /// Memory ran out.
    NoMemory,
}

/// Files by their names.
pub trait Store {
    /// The files, each with its name, where the store tells them. The first of a name counts.
    ghost files: { Self → Option Files };

    /// How often a load has failed.
    ghost faults: { Self → ℕ };

    /// How often a name was lacking, where the store doesn't tell its files.
    ghost misses: { Self → ℕ };

    /// Appends the first `most + 1` bytes of the file to the empty `into`, or all if it has fewer.
    ///
    /// So a file is longer than `most` exactly where `into` then is. After any answer but `Whole`,
    /// `into` is still empty.
    fn load(&mut self, name: &str, most: u64, into: &mut Vec<u8>) -> Loaded
        requires { into.old.items ≡ [] }

        ensures kept { files self.new ≡ files self.old }
        ensures faults { faults self.old ≤ faults self.new }
        ensures misses { misses self.old ≤ misses self.new }

        ensures whole { result ≡ Loaded.Whole → Reads (files self.old) name.now most into.new.items }
        ensures length { length into.new.items ≤ most + 1 }
        ensures other { result ≢ Loaded.Whole → into.new.items ≡ [] }

        ensures missing { result ≡ Loaded.Missing → Lacks (files self.old) name.now (misses self.old) (misses self.new) }
        ensures failed { result ≡ Loaded.Failed → Rose (faults self.old) (faults self.new) };
}
