ghost use Rattle.std.specs.Prelude.{◌≡◌, ◌≤◌, length, [], ◌∷◌};
ghost use Rattle.pdu.specs.Layout.{ustat_bytes};
ghost use Rattle.pdu.specs.Decoding.{read_ustat};
ghost use Rattle.pdu.specs.Encoding.{refused_numbers, encoded, written};

use crate::Refusal;
use crate::bytes::{number, put};
use numbers::{Counted, SeqNo};

/// USTAT: its two list elements, N(MR) and N(R).
#[derive(Clone, Copy, Debug)]
pub struct Ustat {
    pub first: SeqNo,
    pub second: SeqNo,
    pub mr: SeqNo,
    pub r: SeqNo,
}

impl Ustat {
    pub const HEAD: usize = 16;

    pub const TYPE: u8 = 12;

    // What USTAT's bytes say.
    pub(crate) fn read(bytes: &[u8]) -> Ustat
        requires { 16 ≤ length bytes.now }
        ensures { result ≡ read_ustat bytes.now }
    {
        Ustat {
            first: SeqNo::from_word(number(bytes, 0)),
            second: SeqNo::from_word(number(bytes, 4)),
            mr: SeqNo::from_word(number(bytes, 8)),
            r: SeqNo::from_word(number(bytes, 12)),
        }
    }
}

/// Writes a USTAT and gives the count of its bytes. Refusals, in this order: 19, 8.
#[tactic(auto, unfolding(crate::specs::Layout::ustat_bytes))]
pub fn encode_ustat(
    first: SeqNo,
    second: SeqNo,
    mr: SeqNo,
    r: SeqNo,
    out: &mut [u8],
) -> Result<usize, Refusal>
    ensures answer { result ≡ encoded (refused_numbers (first.0 ∷ second.0 ∷ mr.0 ∷ r.0 ∷ [])) (ustat_bytes first.0 second.0 mr.0 r.0) out.old }
    ensures output { out.new ≡ written result (ustat_bytes first.0 second.0 mr.0 r.0) out.old }
{
    if !first.in_range() || !second.in_range() || !mr.in_range() || !r.in_range() {
        return Err(Refusal::NumberTooLarge);
    }
    if out.len() < Ustat::HEAD {
        return Err(Refusal::NoRoom);
    }
    put(out, 0, 0, first.word());
    put(out, 4, 0, second.word());
    put(out, 8, 0, mr.word());
    put(out, 12, Ustat::TYPE, r.word());
    Ok(Ustat::HEAD)
}
