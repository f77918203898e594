// What a call changed: what is there now, compared with what was there before.
use crate::lent::{Lent, Sizes};
use end::{End, Kept};
use std::alloc::{AllocError, Global};
use std::{fmt, io};

// What the output has before each call.
const DIRTY_OUTPUT: u8 = 0xE4;

const COUNT: usize = 19;

const NAMES: [&str; COUNT] = [
    "C", "B", "k", "MaxSTAT", "MaxPD", "running", "S", "A", "MS", "PS", "PA", "PD", "kept",
    "first", "T", "R", "H", "MR", "head",
];

// The words that stand there, which a case may have put out of range: they are told, and not counted with.
fn numbers_of(end: &End) -> [u32; COUNT] {
    [
        end.params.credit,
        end.params.keep,
        end.params.longest,
        end.params.maxstat,
        end.params.maxpd,
        end.running,
        end.vt.s.0,
        end.vt.a.0,
        end.vt.ms.0,
        end.vt.ps.0,
        end.vt.pa.0,
        end.vt.pd,
        end.vt.kept,
        end.vt.first,
        end.vr.t.0,
        end.vr.r.0,
        end.vr.h.0,
        end.vr.mr.0,
        end.vr.head,
    ]
}

/// The cells of an area, or one column of the entries.
#[derive(Clone, Copy)]
enum Cells<'a> {
    Bytes(&'a [u8]),
    Words(&'a [u32]),
    Lengths(&'a [Kept]),
    Stamps(&'a [Kept]),
    Waiting(&'a [Kept]),
    /// Any count of the same byte.
    All(u8),
}

impl Cells<'_> {
    fn len(self) -> usize {
        match self {
            Cells::Bytes(bytes) => bytes.len(),
            Cells::Words(words) => words.len(),
            Cells::Lengths(entries) | Cells::Stamps(entries) | Cells::Waiting(entries) => {
                entries.len()
            }
            Cells::All(_) => usize::MAX,
        }
    }

    fn at(self, i: usize) -> Option<u32> {
        match self {
            Cells::Bytes(bytes) => bytes.get(i).map(|&byte| byte as u32),
            Cells::Words(words) => words.get(i).copied(),
            Cells::Lengths(entries) => entries.get(i).map(|entry| entry.length),
            Cells::Stamps(entries) => entries.get(i).map(|entry| entry.stamp.0),
            Cells::Waiting(entries) => entries.get(i).map(|entry| entry.waiting),
            Cells::All(byte) => Some(byte as u32),
        }
    }

    fn write<W: fmt::Write>(
        self,
        f: &mut fmt::Formatter<W>,
        from: usize,
        to: usize,
    ) -> fmt::Result {
        for i in from..to {
            match (self, self.at(i).unwrap_or(0)) {
                (Cells::Bytes(_), byte) => write!(f, " {byte:02X}")?,
                (_, word) => write!(f, " {word}")?,
            }
        }
        Ok(())
    }
}

/// Cells one after the other that changed.
#[derive(Clone, Copy)]
struct Run<'a> {
    cells: Cells<'a>,
    from: usize,
    to: usize,
}

impl fmt::Display for Run<'_> {
    fn fmt<W: fmt::Write>(&self, f: &mut fmt::Formatter<W>) -> fmt::Result {
        let Run { cells, from, to } = *self;
        if from.saturating_add(1) == to {
            write!(f, "{from} =")?;
        } else {
            write!(f, "{from}..{to} =")?;
        }
        if to.saturating_sub(from) <= 16 {
            return cells.write(f, from, to);
        }
        cells.write(f, from, from.saturating_add(4))?;
        f.write_str(" ..")?;
        cells.write(f, to.saturating_sub(4), to)
    }
}

fn print_numbers(rt: &impl Print, old: &[u32; COUNT], new: &[u32; COUNT]) -> io::Result<()> {
    for ((name, old), new) in NAMES.iter().zip(old).zip(new) {
        if old != new {
            print!(rt; "; {name} {new}")?;
        }
    }
    Ok(())
}

fn print_cells(rt: &impl Print, name: &str, old: Cells, new: Cells) -> io::Result<()> {
    let mut changed_from = None;
    for i in 0..new.len() {
        match (old.at(i) != new.at(i), changed_from) {
            (true, None) => changed_from = Some(i),
            (false, Some(from)) => {
                print!(rt;
                    "; {name} {}",
                    Run {
                        cells: new,
                        from,
                        to: i
                    }
                )?;
                changed_from = None;
            }
            _ => {}
        }
    }
    if let Some(from) = changed_from {
        print!(rt;
            "; {name} {}",
            Run {
                cells: new,
                from,
                to: new.len()
            }
        )?;
    }
    Ok(())
}

fn copy<T: Copy>(to: &mut [T], from: &[T]) {
    for (to, from) in to.iter_mut().zip(from) {
        *to = *from;
    }
}

/// The numbers of an end and all that is lent to it, as they were, and the output that its calls write to.
#[derive(Drop)]
pub struct Watch {
    numbers: [u32; COUNT],
    lent: Lent,
    pub output: Vec<u8>,
}

impl Watch {
    /// For an end to which areas of these sizes are lent; `settle` comes first.
    pub fn new(alloc: Global, sizes: Sizes) -> Result<Watch, AllocError> {
        Ok(Watch {
            numbers: [0; COUNT],
            lent: Lent::new(alloc, sizes)?,
            output: vec![in alloc; DIRTY_OUTPUT; sizes.output]?,
        })
    }

    /// Prints what changed since.
    pub fn print_changes(&self, rt: &impl Print, end: &End) -> io::Result<()> {
        print_numbers(rt, &self.numbers, &numbers_of(end))?;
        self.print_entries(rt, end.vt.entries)?;
        let old = &self.lent;
        print_cells(
            rt,
            "kept byte",
            Cells::Bytes(&old.kept_bytes),
            Cells::Bytes(end.vt.bytes),
        )?;
        print_cells(
            rt,
            "mark",
            Cells::Bytes(&old.marks),
            Cells::Bytes(end.vr.marks),
        )?;
        print_cells(
            rt,
            "received length",
            Cells::Words(&old.lengths),
            Cells::Words(end.vr.lengths),
        )?;
        print_cells(
            rt,
            "received byte",
            Cells::Bytes(&old.received_bytes),
            Cells::Bytes(end.vr.bytes),
        )?;
        print_cells(
            rt,
            "output",
            Cells::All(DIRTY_OUTPUT),
            Cells::Bytes(&self.output),
        )
    }

    fn print_entries(&self, rt: &impl Print, new: &[Kept]) -> io::Result<()> {
        let old = self.lent.entries.as_slice();
        print_cells(rt, "length", Cells::Lengths(old), Cells::Lengths(new))?;
        print_cells(rt, "stamp", Cells::Stamps(old), Cells::Stamps(new))?;
        print_cells(rt, "waiting", Cells::Waiting(old), Cells::Waiting(new))
    }

    /// What is there now is what later calls are compared with. The output begins anew.
    pub fn settle(&mut self, end: &End) {
        self.numbers = numbers_of(end);
        copy(&mut self.lent.entries, end.vt.entries);
        copy(&mut self.lent.kept_bytes, end.vt.bytes);
        copy(&mut self.lent.marks, end.vr.marks);
        copy(&mut self.lent.lengths, end.vr.lengths);
        copy(&mut self.lent.received_bytes, end.vr.bytes);
        self.output.fill(DIRTY_OUTPUT);
    }
}
