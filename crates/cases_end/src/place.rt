use end::{End, Kept};
use numbers::{PollNo, SeqNo};

/// A number of the state, or a cell of the lent areas, that a case sets by hand.
#[derive(Clone, Copy)]
pub enum Place {
    Credit,
    Keep,
    Longest,
    MaxStat,
    MaxPd,
    Running,
    S,
    A,
    Ms,
    Ps,
    Pa,
    Pd,
    Kept,
    First,
    T,
    R,
    H,
    Mr,
    Head,
    /// The entry of a kept message: its length, its stamp, and whether it waits.
    Length(usize),
    Stamp(usize),
    Waiting(usize),
    /// A received message: whether it is one, and its length.
    Mark(usize),
    ReceivedLength(usize),
}

impl Place {
    pub fn set(self, end: &mut End, value: u32) {
        match self {
            Place::Credit => end.params.credit = value,
            Place::Keep => end.params.keep = value,
            Place::Longest => end.params.longest = value,
            Place::MaxStat => end.params.maxstat = value,
            Place::MaxPd => end.params.maxpd = value,
            Place::Running => end.running = value,
            Place::S => end.vt.s = SeqNo(value),
            Place::A => end.vt.a = SeqNo(value),
            Place::Ms => end.vt.ms = SeqNo(value),
            Place::Ps => end.vt.ps = PollNo(value),
            Place::Pa => end.vt.pa = PollNo(value),
            Place::Pd => end.vt.pd = value,
            Place::Kept => end.vt.kept = value,
            Place::First => end.vt.first = value,
            Place::T => end.vr.t = SeqNo(value),
            Place::R => end.vr.r = SeqNo(value),
            Place::H => end.vr.h = SeqNo(value),
            Place::Mr => end.vr.mr = SeqNo(value),
            Place::Head => end.vr.head = value,
            cell => cell.set_cell(end, value),
        }
    }

    fn set_cell(self, end: &mut End, value: u32) {
        match self {
            Place::Mark(slot) => put(end.vr.marks, slot, (value & 0xFF) as u8),
            Place::ReceivedLength(slot) => put(end.vr.lengths, slot, value),
            Place::Length(slot) | Place::Stamp(slot) | Place::Waiting(slot) => {
                if let Some(entry) = end.vt.entries.get_mut(slot) {
                    self.set_in(entry, value);
                }
            }
            _ => {}
        }
    }

    fn set_in(self, entry: &mut Kept, value: u32) {
        match self {
            Place::Length(_) => entry.length = value,
            Place::Stamp(_) => entry.stamp = PollNo(value),
            Place::Waiting(_) => entry.waiting = value,
            _ => {}
        }
    }
}

fn put<T: Drop>(cells: &mut [T], slot: usize, value: T) {
    if let Some(cell) = cells.get_mut(slot) {
        *cell = value;
    }
}
