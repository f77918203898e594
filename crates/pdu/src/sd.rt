ghost use Rattle.std.specs.Prelude.{◌≡◌, ◌≤◌, ◌+◌, ◌++◌, length, replicate, drop};
ghost use Rattle.pdu.specs.Layout.{pad, sd_bytes};
ghost use Rattle.pdu.specs.Decoding.{read_sd};
ghost use Rattle.pdu.specs.Encoding.{refused_sd, encoded, written};

use crate::Refusal;
use crate::bytes::{number, put};
use numbers::{Counted, SeqNo};

/// SD: N(S), and how many bytes of information stand before it.
#[derive(Clone, Copy, Debug)]
pub struct Sd {
    pub s: SeqNo,
    pub length: usize,
}

impl Sd {
    pub const HEAD: usize = 4;

    pub const TYPE: u8 = 8;

    /// The largest k, the longest message.
    pub const MAX_K: u32 = 4_096;

    // What SD's bytes say, or 1: PL beyond the bytes there, or information over k.
    pub(crate) fn read(k: u32, bytes: &[u8]) -> Result<Sd, Refusal>
        requires { 4 ≤ length bytes.now }
        ensures { result ≡ read_sd k bytes.now }
    {
        let last = bytes.len() - Sd::HEAD;
        let pl = (bytes[last] >> 6) as usize;
        if last < pl || last - pl > k as usize {
            return Err(Refusal::Length);
        }
        Ok(Sd {
            s: SeqNo::from_word(number(bytes, last)),
            length: last - pl,
        })
    }
}

// PL for this many bytes of information.
fn pad_of(n: usize) -> usize
    ensures value { result ≡ pad n }
    ensures small { result ≤ 3 }
{
    (4 - n % 4) % 4
}

// Writes information and pl pad bytes to the start of the output.
fn put_padded(out: &mut [u8], information: &[u8], pl: usize)
    requires { length information.now + pl ≤ length out.old }
    ensures { out.new ≡ (information.now ++ replicate pl 0) ++ drop (length information.now + pl) out.old }
{
    let length = information.len();
    out[..length].copy_from_slice(information);
    out[length..length + pl].fill(0);
}

/// Writes an SD with this information and gives the count of its bytes. Refusals, in this order: 17 for k, 19, 9, 8.
#[tactic(auto, unfolding(crate::specs::Layout::sd_bytes))]
pub fn encode_sd(k: u32, s: SeqNo, information: &[u8], out: &mut [u8]) -> Result<usize, Refusal>
    ensures answer { result ≡ encoded (refused_sd k s.0 information.now) (sd_bytes s.0 information.now) out.old }
    ensures output { out.new ≡ written result (sd_bytes s.0 information.now) out.old }
{
    if k > Sd::MAX_K {
        return Err(Refusal::Rules);
    }
    if !s.in_range() {
        return Err(Refusal::NumberTooLarge);
    }
    let length = information.len();
    if length > k as usize {
        return Err(Refusal::LongMessage);
    }
    let pl = pad_of(length);
    let last = length + pl;
    if out.len() < last + Sd::HEAD {
        return Err(Refusal::NoRoom);
    }
    put_padded(out, information, pl);
    put(out, last, (pl as u8) * 64 + Sd::TYPE, s.word());
    Ok(last + Sd::HEAD)
}
