ghost use Rattle.std.specs.Prelude.{◌≡◌, ◌+◌, ◌<◌, ◌≤◌, length};
ghost use Rattle.pdu.specs.Layout.{write_at};
ghost use Rattle.transmit.specs.Store.{change_at, with_length};
ghost use Rattle.transmit.specs.Sending.{stamped};

use end::Kept;
use numbers::PollNo;

// Writes a message to the store, from byte `at` on.
pub(crate) fn put_message(bytes: &mut [u8], at: usize, message: &[u8])
    requires { at + length message.now ≤ length bytes.old }
    ensures { bytes.new ≡ write_at at message.now bytes.old }
{
    bytes[at..at + message.len()].copy_from_slice(message);
}

// The entry in this slot is of a message of n bytes.
#[tactic(auto, using(crate::proofs::Stores::changes))]
pub(crate) fn put_length(entries: &mut [Kept], slot: usize, n: u32)
    requires { slot < length entries.old }
    ensures { entries.new ≡ change_at (with_length n) slot entries.old }
{
    entries[slot].length = n;
}

// The message in this slot is sent with this stamp, and no longer waits.
#[tactic(auto, using(crate::proofs::Stores::changes))]
pub(crate) fn put_stamp(entries: &mut [Kept], slot: usize, ps: PollNo)
    requires { slot < length entries.old }
    ensures { entries.new ≡ change_at (stamped ps) slot entries.old }
{
    entries[slot] = Kept {
        stamp: ps,
        waiting: 0,
        ..entries[slot]
    };
}
