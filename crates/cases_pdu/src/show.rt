use numbers::Counted;
use pdu::{Pdu, Refusal};
use std::fmt;

// More bytes than any case needs.
pub const ROOM: usize = 4_112;

// The longest list.
pub const ELEMENTS: usize = 500;

// What an output holds before an encoder gets it.
pub const KEPT: u8 = 0xee;

// A PDU's fields, or the number of the answer.
#[derive(Drop)]
pub struct Found(pub Pdu);

impl fmt::Display for Found {
    fn fmt<W: fmt::Write>(&self, f: &mut fmt::Formatter<W>) -> fmt::Result {
        match self.0 {
            Pdu::Sd(p) => write!(f, "SD {}, length {}", p.s.word(), p.length),
            Pdu::Poll(p) => write!(f, "POLL {} {}", p.ps.word(), p.s.word()),
            Pdu::Stat(p) => {
                write!(f, "STAT {} {} {}", p.ps.word(), p.mr.word(), p.r.word())?;
                write!(f, ", count {}", p.count)
            }
            Pdu::Ustat(p) => {
                write!(f, "USTAT {} {}", p.first.word(), p.second.word())?;
                write!(f, " {} {}", p.mr.word(), p.r.word())
            }
            Pdu::Refused(refusal) => write!(f, "{}", refusal.number()),
        }
    }
}

// Bytes; of a long string only a sum, in which each byte weighs as its place, so that two that are exchanged show.
#[derive(Drop)]
pub struct Hex<'a>(pub &'a [u8]);

impl fmt::Display for Hex<'_> {
    fn fmt<W: fmt::Write>(&self, f: &mut fmt::Formatter<W>) -> fmt::Result {
        if self.0.is_empty() {
            return f.write_str("no bytes");
        }
        if self.0.len() > 24 {
            return write!(f, "{} bytes, sum {}", self.0.len(), sum(self.0));
        }
        for (i, &byte) in self.0.iter().enumerate() {
            f.write_str(if i == 0 { "" } else { " " })?;
            write!(f, "{byte:02X}")?;
        }
        Ok(())
    }
}

fn sum(bytes: &[u8]) -> u64 {
    let mut sum: u64 = 0;
    for (place, &byte) in (1_u64..).zip(bytes) {
        sum = sum.wrapping_add(place.wrapping_mul(u64::from(byte)));
    }
    sum
}

// What an encoder answered and what its output then holds: bytes as many as it counted, or none on a refusal, and whether the rest is as before.
#[derive(Drop)]
pub struct Written<'a> {
    pub answer: Result<usize, Refusal>,
    pub out: &'a [u8],
}

impl fmt::Display for Written<'_> {
    fn fmt<W: fmt::Write>(&self, f: &mut fmt::Formatter<W>) -> fmt::Result {
        let count = self.answer.unwrap_or(0);
        let bytes = self.out.get(..count).unwrap_or(&[]);
        let rest = self.out.get(count..).unwrap_or(&[]);
        let kept = if rest.iter().all(|&b| b == KEPT) {
            "kept"
        } else {
            "not kept"
        };
        match self.answer {
            Ok(n) => write!(f, "{n}: {}; rest {kept}", Hex(bytes)),
            Err(refusal) => write!(f, "refused {}; all {kept}", refusal.number()),
        }
    }
}
