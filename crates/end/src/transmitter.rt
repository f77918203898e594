ghost use Rattle.std.specs.Prelude.{◌≡◌, ◌<◌, length, IsTrue};
ghost use Rattle.end.specs.Rules.{sent, outstanding, entry_keeps, entries_keep, vt_counts_keep, vt_keeps, vt_room};

use crate::Params;
use crate::ring::place;
use numbers::{PollNo, SeqNo};

/// The entry of a kept message.
#[derive(Clone, Copy, Debug)]
#[repr(C)]
pub struct Kept {
    pub length: u32,
    pub stamp: PollNo,
    /// The message waits to be resent where this is not 0.
    pub waiting: u32,
}

impl Kept {
    // The entry of message i keeps the rules.
    fn keeps_rules(self, i: usize, k: u32, sent: usize, kept: usize) -> bool
        ensures { result ≡ entry_keeps k sent kept i self }
    {
        (i >= kept || self.length <= k)
            && (if i < sent {
                self.stamp.in_range()
            } else {
                self.waiting == 0
            })
    }
}

/// The transmitter: its variables, and its store of kept messages.
#[derive(Drop)]
pub struct Transmitter<'a> {
    pub s: SeqNo,
    pub a: SeqNo,
    pub ms: SeqNo,
    pub ps: PollNo,
    pub pa: PollNo,
    pub pd: u32,
    /// How many messages are kept, from VT(A) on.
    pub kept: u32,
    /// The slot of message VT(A).
    pub first: u32,
    pub entries: &'a mut [Kept],
    pub bytes: &'a mut [u8],
}

// The entries of a ring keep the rules.
fn entries_keep_rules(ring: &[Kept], first: usize, k: u32, sent: usize, kept: usize) -> bool
    requires { first < length ring.now }
    ensures { result ≡ entries_keep k sent kept first ring.now }
{
    let size = ring.len();
    ring.iter().enumerate().all(|(slot, entry)| entry.keeps_rules(
        place(slot, first, size),
        k,
        sent,
        kept,
    ))
}

impl Transmitter<'_> {
    pub const MAX_OUTSTANDING: u32 = 8_388_607;

    /// How many messages are sent and not acknowledged.
    pub fn sent(&self) -> u32
        ensures { result ≡ sent self.now }
    {
        self.s.ahead(self.a)
    }

    /// How many polls are outstanding.
    pub fn outstanding(&self) -> u32
        ensures { result ≡ outstanding self.now }
    {
        self.ps.next().ahead(self.pa)
    }

    // The lent areas are long enough.
    pub(crate) fn has_room(&self, p: Params) -> bool
        ensures { result ≡ vt_room p self.now }
    {
        p.keep as usize <= self.entries.len()
            && p.keep as usize * p.longest as usize <= self.bytes.len()
    }

    fn counts_keep_rules(&self, p: Params) -> bool
        ensures { result ≡ vt_counts_keep p self.now }
    {
        self.s.in_range()
            && self.a.in_range()
            && self.ms.in_range()
            && self.ps.in_range()
            && self.pa.in_range()
            && self.kept <= p.keep
            && self.sent() <= self.kept
            && self.first < p.keep
            && self.outstanding() <= Self::MAX_OUTSTANDING
            && self.pd <= p.maxpd
    }

    pub(crate) fn keeps_rules(&self, p: Params) -> bool
        requires { IsTrue (vt_room p self.now) }
        ensures { result ≡ vt_keeps p self.now }
    {
        self.counts_keep_rules(p)
            && entries_keep_rules(
                &self.entries[..p.keep as usize],
                self.first as usize,
                p.longest,
                self.sent() as usize,
                self.kept as usize,
            )
    }
}
