ghost use Rattle.std.specs.Prelude.{◌≡◌, ◌≤◌, ◌++◌, length, take, drop, map, replicate, IsTrue};
ghost use Rattle.end.specs.Rules.{vt_room, vr_room};
ghost use Rattle.end.specs.Opening.{can_open, open_answer, opened, opened_vt, opened_vr, unmarked};

use crate::{End, Kept, Params, Receiver, Transmitter};
use numbers::{Counted, PollNo, SeqNo};
use pdu::Refusal;

// No message waits.
#[tactic(auto, using(crate::proofs::Clearing::clear_more))]
fn clear(entries: &mut [Kept])
    ensures { entries.new ≡ map unmarked entries.old }
{
    for entry in entries {
        entry.waiting = 0;
    }
}

// No message of the first `count` slots waits.
fn clear_first(entries: &mut [Kept], count: usize)
    requires { count ≤ length entries.old }
    ensures { entries.new ≡ map unmarked (take count entries.old) ++ drop count entries.old }
{
    clear(&mut entries[..count]);
}

// No message of the first `count` slots is marked received.
fn unmark_first(marks: &mut [u8], count: usize)
    requires { count ≤ length marks.old }
    ensures { marks.new ≡ replicate count 0 ++ drop count marks.old }
{
    marks[..count].fill(0);
}

impl Transmitter<'_> {
    fn open(&mut self, p: Params, n: SeqNo, g: u32)
        requires { IsTrue (vt_room p self.old) }
        ensures { self.new ≡ opened_vt p n g self.old }
    {
        self.s = n;
        self.a = n;
        self.ms = n.onward(g);
        self.ps = PollNo::from_word(n.word());
        self.pa = self.ps.next();
        self.pd = 0;
        self.kept = 0;
        self.first = 0;
        clear_first(self.entries, p.keep as usize);
    }
}

impl Receiver<'_> {
    fn open(&mut self, p: Params, n: SeqNo)
        requires { IsTrue (vr_room p self.old) }
        ensures { self.new ≡ opened_vr p n self.old }
    {
        self.t = n;
        self.r = n;
        self.h = n;
        self.mr = n.onward(p.credit);
        self.head = 0;
        unmark_first(self.marks, p.credit as usize);
    }
}

impl End<'_> {
    /// The most credit that a peer grants at first.
    pub const MAX_GRANT: u32 = 1_024;

    fn can_open(&self, n: SeqNo, g: u32) -> bool
        ensures { result ≡ can_open self.now n g }
    {
        self.params.keep_rules()
            && self.vt.has_room(self.params)
            && self.vr.has_room(self.params)
            && n.in_range()
            && g <= Self::MAX_GRANT
    }

    /// Opens the connection with the number n, where the peer grants credit for g messages at first. Refusal: 17.
    pub fn open(&mut self, n: SeqNo, g: u32) -> Result<(), Refusal>
        ensures answer { result ≡ open_answer self.old n g }
        ensures end { self.new ≡ opened self.old n g }
    {
        if !self.can_open(n, g) {
            return Err(Refusal::Rules);
        }
        self.running = 1;
        self.vt.open(self.params, n, g);
        self.vr.open(self.params, n);
        Ok(())
    }
}
