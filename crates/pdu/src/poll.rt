ghost use Rattle.std.specs.Prelude.{◌≡◌, ◌≤◌, length, [], ◌∷◌};
ghost use Rattle.pdu.specs.Layout.{poll_bytes};
ghost use Rattle.pdu.specs.Decoding.{read_poll};
ghost use Rattle.pdu.specs.Encoding.{refused_numbers, encoded, written};

use crate::Refusal;
use crate::bytes::{number, put};
use numbers::{Counted, PollNo, SeqNo};

/// POLL: N(PS) and N(S).
#[derive(Clone, Copy, Debug)]
pub struct Poll {
    pub ps: PollNo,
    pub s: SeqNo,
}

impl Poll {
    pub const HEAD: usize = 8;

    pub const TYPE: u8 = 10;

    // What POLL's bytes say.
    pub(crate) fn read(bytes: &[u8]) -> Poll
        requires { 8 ≤ length bytes.now }
        ensures { result ≡ read_poll bytes.now }
    {
        Poll {
            ps: PollNo::from_word(number(bytes, 0)),
            s: SeqNo::from_word(number(bytes, 4)),
        }
    }
}

/// Writes a POLL and gives the count of its bytes. Refusals, in this order: 19, 8.
#[tactic(auto, unfolding(crate::specs::Layout::poll_bytes))]
pub fn encode_poll(ps: PollNo, s: SeqNo, out: &mut [u8]) -> Result<usize, Refusal>
    ensures answer { result ≡ encoded (refused_numbers (ps.0 ∷ s.0 ∷ [])) (poll_bytes ps.0 s.0) out.old }
    ensures output { out.new ≡ written result (poll_bytes ps.0 s.0) out.old }
{
    if !ps.in_range() || !s.in_range() {
        return Err(Refusal::NumberTooLarge);
    }
    if out.len() < Poll::HEAD {
        return Err(Refusal::NoRoom);
    }
    put(out, 0, 0, ps.word());
    put(out, 4, Poll::TYPE, s.word());
    Ok(Poll::HEAD)
}
