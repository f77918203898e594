// PDUs: bytes to fields and back (docs/RULES.md, "PDU layouts"; Q.2110, 7.1 and 7.2). No other crate knows that bytes have an order.
#![tactic(auto)]

mod bytes;
mod decoding;
mod poll;
mod refusal;
mod sd;
mod stat;
mod ustat;

pub use decoding::{Pdu, decode};
pub use poll::{Poll, encode_poll};
pub use refusal::Refusal;
pub use sd::{Sd, encode_sd};
pub use stat::{Stat, encode_stat};
pub use ustat::{Ustat, encode_ustat};
