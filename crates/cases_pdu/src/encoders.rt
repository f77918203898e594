use crate::lists::longest_list;
use crate::show::{ELEMENTS, KEPT, ROOM, Written};
use numbers::{PollNo, SeqNo};
use pdu::{encode_poll, encode_sd, encode_stat, encode_ustat};
use std::{fmt, io};

// The first word that is no number.
const OVER: u32 = 16_777_216;

// The last number.
const MOST: u32 = 16_777_215;

fn print_sd(rt: &impl Print, k: u32, s: u32, length: usize, room: usize) -> io::Result<()> {
    let mut information = [0; ROOM];
    for (byte, letter) in information.iter_mut().zip((b'A'..=b'Z').cycle()) {
        *byte = letter;
    }
    let mut out = [KEPT; ROOM];
    let answer = encode_sd(
        k,
        SeqNo(s),
        information.get(..length).unwrap_or(&[]),
        out.get_mut(..room).unwrap_or(&mut []),
    );
    println!(rt;
        "SD {s}, length {length}, k {k}, room {room}: {}",
        Written { answer, out: &out }
    )
}

pub fn print_sds(rt: &impl Print) -> io::Result<()> {
    for (length, size) in [
        (0, 4),
        (1, 8),
        (2, 8),
        (3, 8),
        (4, 8),
        (5, 12),
        (4_095, 4_100),
        (4_096, 4_100),
    ] {
        for room in [size - 1, size, size + 1] {
            print_sd(rt, 4_096, 0x01_02_03, length, room)?;
        }
    }
    for (k, s, length, room) in [
        (2, MOST, 2, 8),
        (0, 0, 0, 4),
        (0, 0, 0, 0),
        // one refusal
        (4_097, 5, 2, 8),
        (4_294_967_295, 5, 2, 8),
        (2, OVER, 2, 8),
        (2, 4_294_967_295, 2, 8),
        (2, 5, 3, 8),
        (0, 5, 1, 8),
        (4_096, 5, 4_097, 4_104),
        // two
        (4_097, OVER, 2, 8),
        (4_097, 5, 4_098, 4_104),
        (4_097, 5, 2, 7),
        (2, OVER, 3, 8),
        (2, OVER, 2, 7),
        (2, 5, 3, 7),
        // three and four
        (2, OVER, 3, 7),
        (4_097, OVER, 4_098, 4_103),
    ] {
        print_sd(rt, k, s, length, room)?;
    }
    Ok(())
}

fn print_poll(rt: &impl Print, ps: u32, s: u32, room: usize) -> io::Result<()> {
    let mut out = [KEPT; ROOM];
    let answer = encode_poll(PollNo(ps), SeqNo(s), out.get_mut(..room).unwrap_or(&mut []));
    println!(rt;
        "POLL {ps} {s}, room {room}: {}",
        Written { answer, out: &out }
    )
}

pub fn print_polls(rt: &impl Print) -> io::Result<()> {
    for (ps, s, room) in [
        (1, 2, 0),
        (1, 2, 7),
        (1, 2, 8),
        (1, 2, 9),
        (0x12_34_56, 0x65_43_21, 8),
        (MOST, MOST, 8),
        (OVER, 2, 8),
        (1, OVER, 8),
        (4_294_967_295, 4_294_967_295, 8),
        (OVER, 2, 7),
        (1, OVER, 7),
    ] {
        print_poll(rt, ps, s, room)?;
    }
    Ok(())
}

// A short list's numbers, and how many a long one has.
#[derive(Drop)]
struct List<'a>(&'a [u32]);

impl fmt::Display for List<'_> {
    fn fmt<W: fmt::Write>(&self, f: &mut fmt::Formatter<W>) -> fmt::Result {
        if self.0.len() > 4 {
            write!(f, "{} elements", self.0.len())
        } else {
            write!(f, "{:?}", self.0)
        }
    }
}

fn print_stat(rt: &impl Print, numbers: [u32; 3], list: &[u32], room: usize) -> io::Result<()> {
    let [ps, mr, r] = numbers;
    let mut out = [KEPT; ROOM];
    let answer = encode_stat(
        PollNo(ps),
        SeqNo(mr),
        SeqNo(r),
        list,
        out.get_mut(..room).unwrap_or(&mut []),
    );
    println!(rt;
        "STAT {ps} {mr} {r}, {}, room {room}: {}",
        List(list),
        Written { answer, out: &out }
    )
}

pub fn print_stats(rt: &impl Print) -> io::Result<()> {
    let list = longest_list();
    for (count, size) in [(0, 12), (1, 16), (2, 20), (67, 280), (ELEMENTS, 2_012)] {
        for room in [size - 1, size, size + 1] {
            print_stat(rt, [1, 10, 2], list.get(..count).unwrap_or(&[]), room)?;
        }
    }
    for (numbers, list, room) in [
        ([MOST, MOST, MOST], &[MOST, 0][..], 20),
        ([1, 10, 2], &[], 0),
        ([OVER, 10, 2], &[], 12),
        ([1, OVER, 2], &[], 12),
        ([1, 10, OVER], &[], 12),
        ([1, 10, 2], &[OVER, 4], 20),
        ([1, 10, 2], &[3, OVER], 20),
        ([1, 10, 2], &[3, 4_294_967_295], 20),
        ([OVER, 10, 2], &[], 11),
        ([1, OVER, 2], &[], 11),
        ([1, 10, OVER], &[], 11),
        ([1, 10, 2], &[3, OVER], 19),
    ] {
        print_stat(rt, numbers, list, room)?;
    }
    let mut list = list;
    list[ELEMENTS - 1] = OVER;
    print_stat(rt, [1, 10, 2], &list, 2_012)
}

fn print_ustat(rt: &impl Print, numbers: [u32; 4], room: usize) -> io::Result<()> {
    let [first, second, mr, r] = numbers;
    let mut out = [KEPT; ROOM];
    let answer = encode_ustat(
        SeqNo(first),
        SeqNo(second),
        SeqNo(mr),
        SeqNo(r),
        out.get_mut(..room).unwrap_or(&mut []),
    );
    println!(rt;
        "USTAT {first} {second} {mr} {r}, room {room}: {}",
        Written { answer, out: &out }
    )
}

pub fn print_ustats(rt: &impl Print) -> io::Result<()> {
    for (numbers, room) in [
        ([3, 5, 16, 3], 0),
        ([3, 5, 16, 3], 15),
        ([3, 5, 16, 3], 16),
        ([3, 5, 16, 3], 17),
        ([0x12_34_56, 0x65_43_21, 0x01_02_03, 0x0a_0b_0c], 16),
        ([MOST, MOST, MOST, MOST], 16),
        ([OVER, 5, 16, 3], 16),
        ([3, OVER, 16, 3], 16),
        ([3, 5, OVER, 3], 16),
        ([3, 5, 16, OVER], 16),
        ([OVER, 5, 16, 3], 15),
        ([3, OVER, 16, 3], 15),
        ([3, 5, OVER, 3], 15),
        ([3, 5, 16, OVER], 15),
    ] {
        print_ustat(rt, numbers, room)?;
    }
    Ok(())
}
