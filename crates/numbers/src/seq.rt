ghost use Rattle.std.specs.Prelude.{◌≡◌};
ghost use Rattle.std.proofs.Common.{rules};
ghost use Rattle.numbers.specs.Counted.{new_in, is_in_range, onward_in, next_in, ahead_in};
ghost use Rattle.numbers.specs.Numbers.{modulus, seq_nos};

use crate::{Counted, MODULUS};

/// The number of an SD.
// No `==`, no order and no `Hash`: they would compare the words inside, and the words 0 and 2^24 count alike.
#[derive(Clone, Copy, Debug)]
#[repr(C)]
pub struct SeqNo(pub u32);

// Written out here and for `PollNo`: the two are types of their own, since an SD number is never compared with a poll number, a constant with a
// value in its trait can have no ghost member of its name, and `rt ci` refuses an impl that a macro writes.
impl Counted for SeqNo {
    ghost kind = { seq_nos };

    ghost MODULUS = { modulus };

    ghost counted = { Prim.search rules };

    const MODULUS: u32 = SeqNo::MODULUS;

    fn from_word(word: u32) -> SeqNo {
        SeqNo(word)
    }

    fn word(self) -> u32 {
        self.0
    }
}

// What `Counted` has for every kind, under names of the type's own: the address of a function that kinds share cannot be taken, a caller's trait may
// have a method of such a name, and a clause can say `SeqNo.MODULUS`.
impl SeqNo {
    pub const MODULUS: u32 = MODULUS;

    /// Refuses the modulus and more.
    pub fn new(n: u32) -> Option<SeqNo>
        ensures { result ≡ new_in seq_nos n }
    {
        <SeqNo as Counted>::new(n)
    }

    /// It is below the modulus (answers 17 and 19 ask it).
    pub fn in_range(self) -> bool
        ensures { result ≡ is_in_range seq_nos self }
    {
        Counted::in_range(self)
    }

    /// The number d further on.
    pub fn onward(self, d: u32) -> SeqNo
        ensures { result ≡ onward_in seq_nos self d }
    {
        Counted::onward(self, d)
    }

    /// The number after.
    pub fn next(self) -> SeqNo
        ensures { result ≡ next_in seq_nos self }
    {
        Counted::next(self)
    }

    /// How far it is ahead of q.
    pub fn ahead(self, q: SeqNo) -> u32
        ensures { result ≡ ahead_in seq_nos self q }
    {
        Counted::ahead(self, q)
    }
}
