ghost use Rattle.std.specs.Prelude.{◌≡◌};
ghost use Rattle.pdu.specs.Decoding.{decode_of};

use crate::{Poll, Refusal, Sd, Stat, Ustat};

/// What a byte string says: a PDU of one of the four kinds, or why it is none (answers 1 to 3, and 17 for k).
#[derive(Clone, Copy, Debug)]
pub enum Pdu {
    Sd(Sd),
    Poll(Poll),
    Stat(Stat),
    Ustat(Ustat),
    Refused(Refusal),
}

/// Reads any byte string, for the longest message k. Refusals, in this order: 17 for k; 1 for under 4 bytes or not a multiple of 4; 2; 3; the rest of 1.
#[tactic(auto, unfolding(crate::specs::Decoding::decode_of))]
pub fn decode(k: u32, bytes: &[u8]) -> Pdu
    ensures { result ≡ decode_of k bytes.now }
{
    if k > Sd::MAX_K {
        return Pdu::Refused(Refusal::Rules);
    }
    let n = bytes.len();
    if n < 4 || n % 4 != 0 {
        return Pdu::Refused(Refusal::Length);
    }
    match bytes[n - 4] % 16 {
        0 => Pdu::Refused(Refusal::TypeZero),
        Sd::TYPE => match Sd::read(k, bytes) {
            Ok(sd) => Pdu::Sd(sd),
            Err(refusal) => Pdu::Refused(refusal),
        },
        Poll::TYPE if n == Poll::HEAD => Pdu::Poll(Poll::read(bytes)),
        Stat::TYPE if n >= Stat::HEAD => Pdu::Stat(Stat::read(bytes)),
        Ustat::TYPE if n == Ustat::HEAD => Pdu::Ustat(Ustat::read(bytes)),
        Poll::TYPE | Stat::TYPE | Ustat::TYPE => Pdu::Refused(Refusal::Length),
        _ => Pdu::Refused(Refusal::OtherType),
    }
}
