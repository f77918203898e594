ghost use Rattle.std.specs.Prelude.{◌≡◌, ◌<◌, length, IsTrue};
ghost use Rattle.end.specs.Rules.{passed, seen, mark_keeps, marks_keep, vr_counts_keep, vr_keeps, vr_room};

use crate::Params;
use crate::ring::place;
use numbers::SeqNo;

/// The receiver: its variables, and its store of received messages.
#[derive(Drop)]
pub struct Receiver<'a> {
    /// T, the next number to take.
    pub t: SeqNo,
    pub r: SeqNo,
    pub h: SeqNo,
    pub mr: SeqNo,
    /// The slot of message T.
    pub head: u32,
    /// The messages that are marked received are those whose byte here is not 0.
    pub marks: &'a mut [u8],
    pub lengths: &'a mut [u32],
    pub bytes: &'a mut [u8],
}

// The mark and the length of message i from T keep the rules.
fn mark_keeps_rules(mark: u8, length: u32, i: usize, k: u32, passed: usize, seen: usize) -> bool
    ensures { result ≡ mark_keeps k passed seen i mark length }
{
    if mark == 0 {
        passed <= i
    } else {
        i < seen && i != passed && length <= k
    }
}

// The marks and the lengths of a ring keep the rules.
fn marks_keep_rules(
    marks: &[u8],
    lengths: &[u32],
    head: usize,
    k: u32,
    passed: usize,
    seen: usize,
) -> bool
    requires { head < length marks.now }
    ensures { result ≡ marks_keep k passed seen head marks.now lengths.now }
{
    let size = marks.len();
    marks.iter().zip(lengths).enumerate().all(|(slot, (&mark, &length))| mark_keeps_rules(
        mark,
        length,
        place(slot, head, size),
        k,
        passed,
        seen,
    ))
}

impl Receiver<'_> {
    /// How far VR(R) is ahead of T: so many messages are in order.
    pub fn passed(&self) -> u32
        ensures { result ≡ passed self.now }
    {
        self.r.ahead(self.t)
    }

    /// How far VR(H) is ahead of T.
    pub fn seen(&self) -> u32
        ensures { result ≡ seen self.now }
    {
        self.h.ahead(self.t)
    }

    // The lent areas are long enough.
    pub(crate) fn has_room(&self, p: Params) -> bool
        ensures { result ≡ vr_room p self.now }
    {
        p.credit as usize <= self.marks.len()
            && p.credit as usize <= self.lengths.len()
            && p.credit as usize * p.longest as usize <= self.bytes.len()
    }

    fn counts_keep_rules(&self, p: Params) -> bool
        ensures { result ≡ vr_counts_keep p self.now }
    {
        self.t.in_range()
            && self.r.in_range()
            && self.h.in_range()
            && self.mr.in_range()
            && self.passed() <= self.seen()
            && self.seen() <= p.credit
            && self.mr.ahead(self.t) == p.credit
            && self.head < p.credit
    }

    pub(crate) fn keeps_rules(&self, p: Params) -> bool
        requires { IsTrue (vr_room p self.now) }
        ensures { result ≡ vr_keeps p self.now }
    {
        self.counts_keep_rules(p)
            && marks_keep_rules(
                &self.marks[..p.credit as usize],
                &self.lengths[..p.credit as usize],
                self.head as usize,
                p.longest,
                self.passed() as usize,
                self.seen() as usize,
            )
    }
}
