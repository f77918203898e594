ghost use Rattle.std.specs.Prelude.{◌≡◌, ◌++◌, ◌<◌, ◌≤◌, length, drop, slice_set};
ghost use Rattle.end.specs.Ready.{IsInRange, IsReadyVr};
ghost use Rattle.end.specs.Rules.{passed};
ghost use Rattle.accept.specs.Take.{first_message, take_once, take_answer, taken, take_output};

use end::{End, Params, Receiver, slot_of};
use pdu::Refusal;

// The bytes of message T.
#[tactic(auto, using(crate::proofs::Stores::messages))]
fn first_message<'a>(v: &'a Receiver, p: Params) -> &'a [u8]
    requires params { IsInRange p }
    requires ready { IsReadyVr p v.now }
    requires some { 0 < passed v.now }
    ensures { result.now ≡ first_message p v.now }
{
    let slot = v.head as usize;
    let at = slot * p.longest as usize;
    &v.bytes[at..at + v.lengths[slot] as usize]
}

// Message T is no longer received.
fn unmark(marks: &mut [u8], slot: usize)
    requires { slot < length marks.old }
    ensures { marks.new ≡ slice_set marks.old slot 0 }
{
    marks[slot] = 0;
}

// Copies a message to the start of the output.
fn put_message(out: &mut [u8], message: &[u8])
    requires { length message.now ≤ length out.old }
    ensures { out.new ≡ message.now ++ drop (length message.now) out.old }
{
    out[..message.len()].copy_from_slice(message);
}

// T goes up.
fn go_up(v: &mut Receiver, p: Params)
    requires params { IsInRange p }
    requires ready { IsReadyVr p v.old }
    ensures { v.new ≡ take_once p v.old }
{
    unmark(v.marks, v.head as usize);
    v.t = v.t.next();
    v.mr = v.mr.next();
    v.head = slot_of(v.head, 1, p.credit) as u32;
}

/// Writes the next message in order, and gives the count of its bytes; also when the connection has stopped. Refusals, in this order: 17, 16, 8.
pub fn take(e: &mut End, out: &mut [u8]) -> Result<usize, Refusal>
    ensures answer { result ≡ take_answer e.old out.old }
    ensures end { e.new ≡ taken e.old out.old }
    ensures output { out.new ≡ take_output e.old out.old }
{
    e.judged()?;
    if e.vr.passed() == 0 {
        return Err(Refusal::NothingInOrder);
    }
    let message = first_message(&e.vr, e.params);
    let count = message.len();
    if out.len() < count {
        return Err(Refusal::NoRoom);
    }
    put_message(out, message);
    go_up(&mut e.vr, e.params);
    Ok(count)
}
