// What the receiver does in State 10: take (docs/RULES.md, "Steps of State 10").
#![tactic(auto)]

mod taking;

pub use taking::take;
