ghost use Rattle.std.specs.Prelude.{◌≡◌, ◌<◌, ◌≤◌, length};
ghost use Rattle.end.specs.Ready.{IsInRange, IsReadyVt};
ghost use Rattle.transmit.specs.Submit.{keep_message, submit_answer, submitted};

use crate::store::{put_length, put_message};
use end::{End, Params, Transmitter, slot_of};
use pdu::Refusal;

// Keeps the message at the end.
#[tactic(auto, using(crate::proofs::Stores::room))]
fn keep(v: &mut Transmitter, p: Params, message: &[u8])
    requires params { IsInRange p }
    requires ready { IsReadyVt p v.old }
    requires free { v.old.kept < p.keep }
    requires short { length message.now ≤ p.longest }
    ensures { v.new ≡ keep_message p message.now v.old }
{
    let slot = slot_of(v.first, v.kept, p.keep);
    put_length(v.entries, slot, message.len() as u32);
    put_message(v.bytes, slot * p.longest as usize, message);
    v.kept += 1;
}

/// Takes a message to be sent. Refusals, in this order: 17, 15, 9, 10.
pub fn submit(e: &mut End, message: &[u8]) -> Result<(), Refusal>
    ensures answer { result ≡ submit_answer e.old message.now }
    ensures end { e.new ≡ submitted e.old message.now }
{
    e.works()?;
    if message.len() > e.params.longest as usize {
        return Err(Refusal::LongMessage);
    }
    if e.vt.kept == e.params.keep {
        return Err(Refusal::Full);
    }
    keep(&mut e.vt, e.params, message);
    Ok(())
}
