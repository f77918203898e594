// One end of a connection: its parameters, its state, the memory that a maker lends it, and the rules that all of it keeps (answer 17).
#![tactic(auto)]

mod opening;
mod params;
mod receiver;
mod ring;
mod transmitter;
mod whole;

pub use params::Params;
pub use receiver::Receiver;
pub use ring::slot_of;
pub use transmitter::{Kept, Transmitter};
pub use whole::End;
