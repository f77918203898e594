ghost use Rattle.std.specs.Prelude.{◌≡◌, ◌<◌, None};
ghost use Rattle.numbers.specs.Numbers.{modulus};
ghost use Rattle.pdu.specs.Layout.{poll_bytes};
ghost use Rattle.pdu.specs.Encoding.{encoded, written};
ghost use Rattle.transmit.specs.Polling.{poll_answer, polled, poll_output};

use end::{End, Transmitter};
use numbers::{PollNo, SeqNo};
use pdu::{Refusal, encode_poll};

// Writes the POLL of these numbers, which are in range.
#[tactic(auto, using(crate::proofs::InRange::none_refused))]
fn write_poll(ps: PollNo, s: SeqNo, out: &mut [u8]) -> Result<usize, Refusal>
    requires ps { ps.0 < modulus }
    requires s { s.0 < modulus }
    ensures answer { result ≡ encoded None (poll_bytes ps.0 s.0) out.old }
    ensures output { out.new ≡ written result (poll_bytes ps.0 s.0) out.old }
{
    encode_poll(ps, s, out)
}

/// Writes a POLL, and gives the count of its bytes. Refusals, in this order: 17, 15, 14, 8.
#[tactic(auto, using(crate::proofs::InRange::onward_small))]
pub fn poll(e: &mut End, out: &mut [u8]) -> Result<usize, Refusal>
    ensures answer { result ≡ poll_answer e.old out.old }
    ensures end { e.new ≡ polled e.old out.old }
    ensures output { out.new ≡ poll_output e.old out.old }
{
    e.works()?;
    if e.vt.outstanding() == Transmitter::MAX_OUTSTANDING {
        return Err(Refusal::PollsOutstanding);
    }
    let ps = e.vt.ps.next();
    let count = write_poll(ps, e.vt.s, out)?;
    e.vt.ps = ps;
    e.vt.pd = 0;
    Ok(count)
}
