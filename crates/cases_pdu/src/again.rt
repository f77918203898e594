use crate::show::{ELEMENTS, KEPT, ROOM};
use numbers::Counted;
use pdu::{Pdu, Refusal, Stat, encode_poll, encode_sd, encode_stat, encode_ustat};
use std::fmt;

// What became of a decoded string when its PDU was encoded again.
#[derive(Clone, Copy)]
pub enum Again {
    // nothing decoded
    Nothing,
    Same,
    // the same but for reserved and pad bits, which are zero now
    Zeroed,
    Otherwise,
}

impl fmt::Display for Again {
    fn fmt<W: fmt::Write>(&self, f: &mut fmt::Formatter<W>) -> fmt::Result {
        f.write_str(match *self {
            Again::Nothing => "",
            Again::Same => "; again the same",
            Again::Zeroed => "; again the same but for reserved and pad bits",
            Again::Otherwise => "; again otherwise",
        })
    }
}

// Encodes what was decoded from these bytes, with room for as many and no more.
pub fn encode_again(k: u32, pdu: Pdu, bytes: &[u8]) -> Again {
    if let Pdu::Refused(_) = pdu {
        return Again::Nothing;
    }
    let mut out = [KEPT; ROOM];
    let Some(lent) = out.get_mut(..bytes.len()) else {
        return Again::Otherwise;
    };
    match encode(k, pdu, bytes, lent) {
        Ok(n) if n == bytes.len() => compared(pdu, bytes, lent),
        _ => Again::Otherwise,
    }
}

fn encode(k: u32, pdu: Pdu, bytes: &[u8], out: &mut [u8]) -> Result<usize, Refusal> {
    match pdu {
        Pdu::Sd(p) => encode_sd(k, p.s, bytes.get(..p.length).unwrap_or(&[]), out),
        Pdu::Poll(p) => encode_poll(p.ps, p.s, out),
        Pdu::Stat(p) => {
            let mut list = [0; ELEMENTS];
            for (i, word) in list.iter_mut().enumerate() {
                if let Some(element) = Stat::element(bytes, i) {
                    *word = element.word();
                }
            }
            encode_stat(p.ps, p.mr, p.r, list.get(..p.count).unwrap_or(&[]), out)
        }
        Pdu::Ustat(p) => encode_ustat(p.first, p.second, p.mr, p.r, out),
        Pdu::Refused(refusal) => Err(refusal),
    }
}

fn compared(pdu: Pdu, bytes: &[u8], out: &[u8]) -> Again {
    let mut again = Again::Same;
    for (i, (&old, &new)) in bytes.iter().zip(out).enumerate() {
        let free = free_bits(pdu, bytes.len(), i);
        if new != old & !free {
            return Again::Otherwise;
        }
        if new != old {
            again = Again::Zeroed;
        }
    }
    again
}

// The reserved and the pad bits of byte i of n.
fn free_bits(pdu: Pdu, n: usize, i: usize) -> u8 {
    let last = n.saturating_sub(4);
    match pdu {
        Pdu::Sd(p) if p.length <= i && i < last => 0b1111_1111,
        Pdu::Sd(_) if i == last => 0b0011_0000,
        Pdu::Sd(_) => 0,
        _ if i == last => 0b1111_0000,
        _ if i % 4 == 0 => 0b1111_1111,
        _ => 0,
    }
}
