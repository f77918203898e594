// An end over dirty memory, whose calls are told line by line.
use crate::lent::Lent;
use crate::place::Place;
use crate::watch::Watch;
use accept::take;
use end::{End, Kept, Params, Receiver, Transmitter};
use numbers::{PollNo, SeqNo};
use pdu::Refusal;
use std::{fmt, io};
use transmit::{poll, send, submit};

/// A call's answer, with the count where it gives one.
#[derive(Clone, Copy)]
struct Answer(Result<Option<usize>, Refusal>);

impl fmt::Display for Answer {
    fn fmt<W: fmt::Write>(&self, f: &mut fmt::Formatter<W>) -> fmt::Result {
        match self.0 {
            Ok(None) => f.write_str("0"),
            Ok(Some(count)) => write!(f, "0, count {count}"),
            Err(refusal) => write!(f, "{}", refusal.number()),
        }
    }
}

impl Answer {
    fn number(self) -> u32 {
        match self.0 {
            Ok(_) => 0,
            Err(refusal) => refusal.number(),
        }
    }
}

// What the numbers are before an opening: no rule allows this one anywhere.
const DIRTY: u32 = 4_000_000_000;

fn unopened_transmitter<'a>(entries: &'a mut [Kept], bytes: &'a mut [u8]) -> Transmitter<'a> {
    Transmitter {
        s: SeqNo(DIRTY),
        a: SeqNo(DIRTY),
        ms: SeqNo(DIRTY),
        ps: PollNo(DIRTY),
        pa: PollNo(DIRTY),
        pd: DIRTY,
        kept: DIRTY,
        first: DIRTY,
        entries,
        bytes,
    }
}

fn unopened_receiver<'a>(
    marks: &'a mut [u8],
    lengths: &'a mut [u32],
    bytes: &'a mut [u8],
) -> Receiver<'a> {
    Receiver {
        t: SeqNo(DIRTY),
        r: SeqNo(DIRTY),
        h: SeqNo(DIRTY),
        mr: SeqNo(DIRTY),
        head: DIRTY,
        marks,
        lengths,
        bytes,
    }
}

// The first bytes of the output, which a call gets.
fn first_of(output: &mut [u8], room: usize) -> &mut [u8] {
    let room = room.min(output.len());
    &mut output[..room]
}

#[derive(Drop)]
pub struct Bench<'a, R> {
    rt: &'a R,
    end: End<'a>,
    watch: Watch,
}

impl<'a, R: Print> Bench<'a, R> {
    pub fn new(rt: &'a R, params: Params, lent: &'a mut Lent, mut watch: Watch) -> Bench<'a, R> {
        let end = End {
            params,
            running: DIRTY,
            vt: unopened_transmitter(&mut lent.entries, &mut lent.kept_bytes),
            vr: unopened_receiver(&mut lent.marks, &mut lent.lengths, &mut lent.received_bytes),
        };
        watch.settle(&end);
        Bench { rt, end, watch }
    }

    fn tell(&mut self, name: &str, answer: Answer) -> io::Result<()> {
        print!(self.rt; "{name}: {answer}")?;
        self.tell_changes()?;
        self.end_line()
    }

    fn tell_changes(&mut self) -> io::Result<()> {
        let rt = self.rt;
        self.watch.print_changes(rt, &self.end)?;
        self.watch.settle(&self.end);
        Ok(())
    }

    /// Begins a line of several probes.
    pub fn begin_line(&self, text: &str) -> io::Result<()> {
        print!(self.rt; "{text}")
    }

    pub fn end_line(&self) -> io::Result<()> {
        println!(self.rt; "")
    }

    /// A line for what the next ones are about.
    pub fn title(&self, text: &str) -> io::Result<()> {
        println!(self.rt; "{text}")
    }

    pub fn open(&mut self, name: &str, n: u32, g: u32) -> io::Result<()> {
        let answer = Answer(self.end.open(SeqNo(n), g).map(|()| None));
        self.tell(name, answer)
    }

    pub fn submit(&mut self, name: &str, message: &[u8]) -> io::Result<()> {
        let answer = Answer(submit(&mut self.end, message).map(|()| None));
        self.tell(name, answer)
    }

    pub fn send(&mut self, name: &str, room: usize) -> io::Result<()> {
        let output = first_of(&mut self.watch.output, room);
        let answer = Answer(send(&mut self.end, output).map(Some));
        self.tell(name, answer)
    }

    pub fn poll(&mut self, name: &str, room: usize) -> io::Result<()> {
        let output = first_of(&mut self.watch.output, room);
        let answer = Answer(poll(&mut self.end, output).map(Some));
        self.tell(name, answer)
    }

    pub fn take(&mut self, name: &str, room: usize) -> io::Result<()> {
        let output = first_of(&mut self.watch.output, room);
        let answer = Answer(take(&mut self.end, output).map(Some));
        self.tell(name, answer)
    }

    // Submits a message that is too long, and sends, polls and takes into no bytes: what 17 does not refuse, a later answer does.
    fn tell_probe(&mut self) -> io::Result<()> {
        let submitted = Answer(submit(&mut self.end, &[0; 4_097]).map(|()| None)).number();
        let sent = Answer(send(&mut self.end, &mut []).map(Some)).number();
        let polled = Answer(poll(&mut self.end, &mut []).map(Some)).number();
        let taken = Answer(take(&mut self.end, &mut []).map(Some)).number();
        print!(self.rt; ": {submitted} {sent} {polled} {taken}")?;
        self.tell_changes()
    }

    /// The answers of submit, send, poll and take to calls that are refused in any case.
    pub fn probe(&mut self, name: &str) -> io::Result<()> {
        print!(self.rt; "{name}")?;
        self.tell_probe()?;
        self.end_line()
    }

    /// `probe` in a line that has begun.
    pub fn also_probe(&mut self, name: &str) -> io::Result<()> {
        print!(self.rt; ", {name}")?;
        self.tell_probe()
    }

    /// `probe`, and then an opening.
    pub fn probe_and_open(&mut self, name: &str) -> io::Result<()> {
        print!(self.rt; "{name}")?;
        self.tell_probe()?;
        let opened = Answer(self.end.open(SeqNo(0), 0).map(|()| None)).number();
        print!(self.rt; " {opened}")?;
        self.tell_changes()?;
        self.end_line()
    }

    /// Submits empty messages until one is refused.
    pub fn fill(&mut self, name: &str) -> io::Result<()> {
        let mut taken = 0;
        for count in 1..2_000 {
            if submit(&mut self.end, &[]).is_err() {
                break;
            }
            taken = count;
        }
        print!(self.rt; "{name}: {taken} taken")?;
        self.tell_changes()?;
        self.end_line()
    }

    /// Opens with each of these values there, and tells each answer.
    pub fn open_with(&mut self, name: &str, place: Place, values: &[u32]) -> io::Result<()> {
        print!(self.rt; "open")?;
        for &value in values {
            self.set(&[(place, value)]);
            let answer = Answer(self.end.open(SeqNo(0), 0).map(|()| None));
            print!(self.rt; ", {name} {value}: {}", answer.number())?;
            self.tell_changes()?;
        }
        self.end_line()
    }

    /// Sets the state by hand, which no line tells.
    pub fn set(&mut self, values: &[(Place, u32)]) {
        for &(place, value) in values {
            place.set(&mut self.end, value);
        }
        self.watch.settle(&self.end);
    }

    /// Puts a received message into a slot by hand, as an SD would.
    pub fn receive(&mut self, slot: usize, message: &[u8]) {
        let at = slot.saturating_mul(self.end.params.longest as usize);
        if let Some(bytes) = self.end.vr.bytes.get_mut(at..) {
            for (to, from) in bytes.iter_mut().zip(message) {
                *to = *from;
            }
        }
        let length = u32::try_from(message.len()).unwrap_or(u32::MAX);
        self.set(&[
            (Place::Mark(slot), 1),
            (Place::ReceivedLength(slot), length),
        ]);
    }
}
