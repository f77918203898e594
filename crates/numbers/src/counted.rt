// One way of counting for each kind of number.
ghost use Rattle.std.specs.Prelude.{◌≡◌, ℕ};
ghost use Rattle.numbers.specs.Counted.{Kind, IsCounted, new_in, is_in_range, onward_in, next_in, ahead_in};

/// A kind of number, counted modulo a constant of its own. Any u32 may stand inside, since a caller's memory may hold any: `in_range` tells whether
/// it is a number. Two kinds are two types, so neither is compared with the other.
pub trait Counted: Copy {
    // The kind, as clauses see it.
    ghost kind: { Kind Self };

    // The constant below, for clauses.
    ghost MODULUS: { ℕ };

    const MODULUS: u32;

    /// The number that holds this word; every word is taken.
    // No From: each kind would have two impls for these two functions, and `SeqNo::from(n)` would read like `new`, which refuses some words.
    fn from_word(word: u32) -> Self
        ensures { result ≡ kind.from_word word };

    /// The word inside.
    fn word(self) -> u32
        ensures { result ≡ kind.word self };

    // What each `impl` must prove.
    ghost counted: { IsCounted kind MODULUS };

    /// Refuses the modulus and more.
    // No TryFrom: an impl for every kind at once is refused (uncovered-type-parameter), and one for each kind would be a twin.
    final fn new(n: u32) -> Option<Self>
        ensures { result ≡ new_in kind n }
    {
        if n < Self::MODULUS {
            Some(Self::from_word(n))
        } else {
            None
        }
    }

    /// It is below the modulus (answers 17 and 19 ask it).
    final fn in_range(self) -> bool
        ensures { result ≡ is_in_range kind self }
    {
        self.word() < Self::MODULUS
    }

    /// The number d further on.
    #[tactic(auto, using(crate::proofs::Steps::onward_code))]
    final fn onward(self, d: u32) -> Self
        ensures { result ≡ onward_in kind self d }
    {
        Self::from_word((self.word() % Self::MODULUS + d % Self::MODULUS) % Self::MODULUS)
    }

    /// The number after.
    final fn next(self) -> Self
        ensures { result ≡ next_in kind self }
    {
        self.onward(1)
    }

    /// How far it is ahead of q.
    #[tactic(auto, using(crate::proofs::Steps::ahead_code))]
    final fn ahead(self, q: Self) -> u32
        ensures { result ≡ ahead_in kind self q }
    {
        (self.word() % Self::MODULUS + (Self::MODULUS - q.word() % Self::MODULUS)) % Self::MODULUS
    }
}
