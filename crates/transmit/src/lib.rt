// What the transmitter does in State 10: submit, send, poll (docs/RULES.md, "Steps of State 10").
#![tactic(auto)]

mod polling;
mod sending;
mod store;
mod submitting;

pub use polling::poll;
pub use sending::send;
pub use submitting::submit;
