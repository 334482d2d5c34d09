// The words of a row.
ghost use Rattle.std.specs.Prelude.{◌≡◌, ℕ, ◌+◌, ◌<◌, ◌≤◌, [], ◌∷◌, ◌++◌};
ghost use Rattle.assembler.specs.Expansions.{held};

/// The words of a row: at most three.
// Stays: words with a count, since a spelling is `Copy` and no `ArrayVec` is.
#[derive(Clone, Copy, PartialEq, Eq, Debug)]
pub struct Spelling {
    pub words: [u16; 3],
    pub count: usize,
}

impl Spelling {
    pub(crate) fn new() -> Spelling
        ensures text { held result ≡ [] }
        ensures size { result.count ≡ 0 }
    {
        Spelling {
            words: [0; 3],
            count: 0,
        }
    }

    pub(crate) fn push(&mut self, word: u16)
        requires { self.old.count < 3 }
        ensures text { held self.new ≡ held self.old ++ (word ∷ []) }
        ensures size { self.new.count ≡ self.old.count + 1 }
    {
        self.words[self.count] = word;
        self.count += 1;
    }

    /// The words, one behind the other.
    pub fn as_slice(&self) -> &[u16]
        ensures { result.now ≡ held self.now }
    {
        &self.words[..self.count.min(3)]
    }
}
