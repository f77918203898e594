ghost use Rattle.std.specs.Prelude.{◌≡◌, ◌<◌, ◌≤◌, None, IfOk, IfSome, is_ok, if◌then◌else◌, length};
ghost use Rattle.numbers.specs.Numbers.{modulus};
ghost use Rattle.pdu.specs.Layout.{sd_bytes};
ghost use Rattle.pdu.specs.Encoding.{encoded, written};
ghost use Rattle.end.specs.Ready.{IsInRange, IsReadyVt};
ghost use Rattle.end.specs.Rules.{sent as sent_of};
ghost use Rattle.transmit.specs.Sending.{waits as waits_of, lowest_waiting as lowest_waiting_of, next_message as next_message_of, message_of, sd_of, send_once, send_answer, sent_end, send_output};

use crate::store::put_stamp;
use end::{End, Params, Transmitter, slot_of};
use numbers::SeqNo;
use pdu::{Refusal, encode_sd};

// Message i from VT(A) waits to be resent.
fn waits(v: &Transmitter, p: Params, i: u32) -> bool
    requires first { v.now.first < p.keep }
    requires i { i ≤ p.keep }
    ensures { result ≡ waits_of p v.now i }
{
    v.entries
        .get(slot_of(v.first, i, p.keep))
        .is_some_and(|entry| entry.waiting != 0)
}

// The lowest of the messages that wait.
fn lowest_waiting(v: &Transmitter, p: Params) -> Option<u32>
    requires first { v.now.first < p.keep }
    requires sent { sent_of v.now ≤ p.keep }
    ensures lowest { result ≡ lowest_waiting_of p v.now }
    ensures sent { IfSome result (λ i. i < sent_of v.now) }
{
    (0..v.sent()).find(|&i| waits(v, p, i))
}

// The message to send next, counted from VT(A).
fn next_message(v: &Transmitter, p: Params) -> Result<u32, Refusal>
    requires params { IsInRange p }
    requires ready { IsReadyVt p v.now }
    ensures answer { result ≡ next_message_of p v.now }
    ensures kept { IfOk result (λ i. i < v.now.kept) }
{
    if let Some(i) = lowest_waiting(v, p) {
        return Ok(i);
    }
    if v.sent() == v.kept {
        return Err(Refusal::NothingToSend);
    }
    if v.sent() >= v.ms.ahead(v.a) {
        return Err(Refusal::NoCredit);
    }
    Ok(v.sent())
}

// The bytes of message i.
#[tactic(auto, using(crate::proofs::Stores::messages))]
fn message<'a>(v: &'a Transmitter, p: Params, i: u32) -> &'a [u8]
    requires params { IsInRange p }
    requires ready { IsReadyVt p v.now }
    requires kept { i < v.now.kept }
    ensures bytes { result.now ≡ message_of p v.now i }
    ensures short { length result.now ≤ p.longest }
{
    let slot = slot_of(v.first, i, p.keep);
    let at = slot * p.longest as usize;
    &v.bytes[at..at + v.entries[slot].length as usize]
}

// Writes the SD of this number, which is in range, with information of at most k bytes.
#[tactic(auto, using(pdu::proofs::RoundTrip::accepted_sd))]
fn write_sd(k: u32, s: SeqNo, information: &[u8], out: &mut [u8]) -> Result<usize, Refusal>
    requires k { k ≤ 4096 }
    requires s { s.0 < modulus }
    requires short { length information.now ≤ k }
    ensures answer { result ≡ encoded None (sd_bytes s.0 information.now) out.old }
    ensures output { out.new ≡ written result (sd_bytes s.0 information.now) out.old }
{
    encode_sd(k, s, information, out)
}

// Writes message i, and stamps it if there is room.
#[tactic(auto, using(crate::proofs::InRange::onward_small))]
fn send_message(v: &mut Transmitter, p: Params, i: u32, out: &mut [u8]) -> Result<usize, Refusal>
    requires params { IsInRange p }
    requires ready { IsReadyVt p v.old }
    requires kept { i < v.old.kept }
    requires pd { v.old.pd < p.maxpd }
    ensures answer { result ≡ encoded None (sd_of p v.old i) out.old }
    ensures output { out.new ≡ written result (sd_of p v.old i) out.old }
    ensures vt { v.new ≡ (if is_ok result then send_once p i v.old else v.old) }
{
    let count = write_sd(p.longest, v.a.onward(i), message(v, p, i), out)?;
    put_stamp(v.entries, slot_of(v.first, i, p.keep), v.ps);
    if i == v.sent() {
        v.s = v.s.next();
    }
    v.pd += 1;
    Ok(count)
}

/// Writes one SD, and gives the count of its bytes. Refusals, in this order: 17, 15, 11, 12, 13, 8.
pub fn send(e: &mut End, out: &mut [u8]) -> Result<usize, Refusal>
    ensures answer { result ≡ send_answer e.old out.old }
    ensures end { e.new ≡ sent_end e.old out.old }
    ensures output { out.new ≡ send_output e.old out.old }
{
    e.works()?;
    let i = next_message(&e.vt, e.params)?;
    if e.vt.pd == e.params.maxpd {
        return Err(Refusal::PollFirst);
    }
    send_message(&mut e.vt, e.params, i, out)
}
