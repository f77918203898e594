ghost use Rattle.std.specs.Prelude.{◌≡◌};
ghost use Rattle.std.proofs.Common.{rules};
ghost use Rattle.numbers.specs.Counted.{new_in, is_in_range, onward_in, next_in, ahead_in};
ghost use Rattle.numbers.specs.Numbers.{modulus, poll_nos, age_poll, older_poll};

use crate::{Counted, MODULUS};

/// The number of a poll, and the stamp that a message takes from one.
#[derive(Clone, Copy, Debug)]
#[repr(C)]
pub struct PollNo(pub u32);

// As `SeqNo`'s impl but for the type; seq.rt says why both are written out, and why there is no `==`.
impl Counted for PollNo {
    ghost kind = { poll_nos };

    ghost MODULUS = { modulus };

    ghost counted = { Prim.search rules };

    const MODULUS: u32 = PollNo::MODULUS;

    fn from_word(word: u32) -> PollNo {
        PollNo(word)
    }

    fn word(self) -> u32 {
        self.0
    }
}

// As `SeqNo`'s (seq.rt says why), and what a stamp has beside it.
impl PollNo {
    pub const MODULUS: u32 = MODULUS;

    /// Refuses the modulus and more.
    pub fn new(n: u32) -> Option<PollNo>
        ensures { result ≡ new_in poll_nos n }
    {
        <PollNo as Counted>::new(n)
    }

    /// It is below the modulus (answers 17 and 19 ask it).
    pub fn in_range(self) -> bool
        ensures { result ≡ is_in_range poll_nos self }
    {
        Counted::in_range(self)
    }

    /// The number d further on.
    pub fn onward(self, d: u32) -> PollNo
        ensures { result ≡ onward_in poll_nos self d }
    {
        Counted::onward(self, d)
    }

    /// The number after.
    pub fn next(self) -> PollNo
        ensures { result ≡ next_in poll_nos self }
    {
        Counted::next(self)
    }

    /// How far it is ahead of q.
    pub fn ahead(self, q: PollNo) -> u32
        ensures { result ≡ ahead_in poll_nos self q }
    {
        Counted::ahead(self, q)
    }

    /// The age of the stamp self against a poll: the signed distance from the one to the other, -2^23 to 2^23 - 1.
    #[tactic(auto, using(crate::proofs::Steps::age_code), unfolding(crate::specs::Counting::age))]
    pub fn age(self, poll: PollNo) -> i32
        ensures { result ≡ age_poll self poll }
    {
        let d = poll.ahead(self);
        if d < PollNo::MODULUS / 2 {
            d as i32
        } else {
            d as i32 - PollNo::MODULUS as i32
        }
    }

    /// The age of the stamp self against a poll is above 0, so that no caller has to reason about signed words.
    #[tactic(auto, unfolding(crate::specs::Counting::older))]
    pub fn older(self, poll: PollNo) -> bool
        ensures { result ≡ older_poll self poll }
    {
        self.age(poll) > 0
    }
}
