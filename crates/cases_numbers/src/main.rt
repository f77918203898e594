// "Numbers" of docs/RULES.md and P10, run: distances, numbers further on and ages, at zero, at the wrap and at both ends. A line says what was asked and
// what came out of SD numbers and of poll numbers; the file stdout has what the rules say. Of an age the line has what it should be, whether it is
// that, and whether it is above 0.
#![tactic(auto)]

use numbers::{Counted, PollNo, SeqNo};
use std::{fmt, io};

// What `new` made of a word, as a line shows it.
#[derive(Drop)]
struct NumberOrTooLarge<N>(Option<N>);

impl<N: Counted> fmt::Display for NumberOrTooLarge<N> {
    fn fmt<W: fmt::Write>(&self, f: &mut fmt::Formatter<W>) -> fmt::Result {
        match self.0 {
            Some(p) => write!(f, "{}", p.word()),
            None => f.write_str("too large"),
        }
    }
}

fn yes_no(b: bool) -> &'static str {
    if b { "yes" } else { "no" }
}

// Each word of a line is a write of its own, so that where a write fails the words before it stand.
fn print_word(rt: &impl Print, word: impl fmt::Display + Drop) -> io::Result<()> {
    print!(rt; " {word}")
}

fn print_ahead(rt: &impl Print, p: u32, q: u32) -> io::Result<()> {
    print!(rt; "ahead")?;
    print_word(rt, p)?;
    print_word(rt, q)?;
    print!(rt; ":")?;
    print_word(rt, SeqNo(p).ahead(SeqNo(q)))?;
    print_word(rt, PollNo(p).ahead(PollNo(q)))?;
    println!(rt)
}

fn print_onward(rt: &impl Print, p: u32, d: u32) -> io::Result<()> {
    print!(rt; "onward")?;
    print_word(rt, p)?;
    print_word(rt, d)?;
    print!(rt; ":")?;
    print_word(rt, SeqNo(p).onward(d).0)?;
    print_word(rt, PollNo(p).onward(d).0)?;
    println!(rt)
}

fn print_next(rt: &impl Print, p: u32) -> io::Result<()> {
    print!(rt; "next")?;
    print_word(rt, p)?;
    print!(rt; ":")?;
    print_word(rt, SeqNo(p).next().0)?;
    print_word(rt, PollNo(p).next().0)?;
    println!(rt)
}

fn print_age(rt: &impl Print, stamp: u32, poll: u32, want: i32) -> io::Result<()> {
    print!(rt; "age")?;
    print_word(rt, stamp)?;
    print_word(rt, poll)?;
    print_word(rt, want)?;
    print!(rt; ":")?;
    print_word(rt, yes_no(PollNo(stamp).age(PollNo(poll)) == want))?;
    print_word(rt, yes_no(PollNo(stamp).older(PollNo(poll))))?;
    println!(rt)
}

fn print_new(rt: &impl Print, n: u32) -> io::Result<()> {
    print!(rt; "new")?;
    print_word(rt, n)?;
    print!(rt; ":")?;
    print_word(rt, yes_no(SeqNo(n).in_range()))?;
    print_word(rt, yes_no(PollNo(n).in_range()))?;
    print_word(rt, NumberOrTooLarge(SeqNo::new(n)))?;
    print_word(rt, NumberOrTooLarge(PollNo::new(n)))?;
    println!(rt)
}

fn main(rt: HostRuntime) -> io::Result<()> {
    for (p, q) in [
        (0, 0),
        (7, 3),
        (3, 7),
        (0, 16_777_215),
        (16_777_215, 0),
        (16_777_216, 0),
        (4_294_967_295, 16_777_217),
    ] {
        print_ahead(&rt, p, q)?;
    }
    for (p, d) in [
        (5, 0),
        (16_777_214, 3),
        (16_777_215, 16_777_215),
        (4_294_967_295, 4_294_967_295),
    ] {
        print_onward(&rt, p, d)?;
    }
    for p in [0, 16_777_215, 4_294_967_295] {
        print_next(&rt, p)?;
    }
    for (stamp, poll, want) in [
        (16_777_215, 0, 1),
        (0, 16_777_215, -1),
        (9, 9, 0),
        (0, 8_388_607, 8_388_607),
        (0, 8_388_608, -8_388_608),
        (8_388_608, 0, -8_388_608),
        (8_388_609, 0, 8_388_607),
        (16_777_000, 784, 1_000),
    ] {
        print_age(&rt, stamp, poll, want)?;
    }
    for n in [0, 16_777_215, 16_777_216, 4_294_967_295] {
        print_new(&rt, n)?;
    }
    Ok(())
}
