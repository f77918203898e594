ghost use Rattle.std.specs.Prelude.{◌≡◌, ◌<◌, ◌≤◌};
ghost use Rattle.numbers.specs.Counting.{onward};
ghost use Rattle.end.specs.Ring.{place as place_of};

// The message in a slot of a ring, counted from the message in the slot `first`.
pub(crate) fn place(slot: usize, first: usize, size: usize) -> usize
    requires { first < size }
    ensures { result ≡ place_of first size slot }
{
    if slot >= first {
        slot - first
    } else {
        size - (first - slot)
    }
}

/// The slot of message i, counted from the message in the slot `first`.
#[tactic(auto, using(crate::proofs::Slots::slot_code))]
pub fn slot_of(first: u32, i: u32, size: u32) -> usize
    requires first { first < size }
    requires i { i ≤ size }
    ensures slot { result ≡ onward size first i }
    ensures below { result < size }
{
    let slot = first as usize + i as usize;
    if slot < size as usize {
        slot
    } else {
        slot - size as usize
    }
}
