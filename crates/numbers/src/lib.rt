// Numbers counted modulo 2^24 (docs/RULES.md, "Numbers"): of SDs and of polls. The two kinds are types of their own, and each is compared by its
// own functions alone. No crate but this one compares, adds to or tests the word inside, by `.0` or `word()`.
#![tactic(auto)]

mod counted;
mod poll;
mod seq;

pub use counted::Counted;
pub use poll::PollNo;
pub use seq::SeqNo;

// 2^24, the modulus of both kinds.
const MODULUS: u32 = 16_777_216;
