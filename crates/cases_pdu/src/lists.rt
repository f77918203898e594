use crate::again::encode_again;
use crate::show::{ELEMENTS, Found, Hex, ROOM};
use numbers::{Counted, SeqNo};
use pdu::{Stat, decode};
use std::{fmt, io};

#[derive(Drop)]
struct Element(Option<SeqNo>);

impl fmt::Display for Element {
    fn fmt<W: fmt::Write>(&self, f: &mut fmt::Formatter<W>) -> fmt::Result {
        match self.0 {
            Some(element) => write!(f, "{}", element.word()),
            None => f.write_str("none"),
        }
    }
}

const LIST_OF_TWO: &[u8] =
    b"\xff\x12\x34\x56\x00\xff\xff\xff\x00\x00\x00\x01\x00\x65\x43\x21\x0b\x00\x01\x00";

// A list in which no number stands twice.
pub fn longest_list() -> [u32; ELEMENTS] {
    let mut list = [0; ELEMENTS];
    let mut next: u32 = 0x01_02_03;
    for element in list.iter_mut() {
        *element = next;
        next = next.wrapping_add(0x06_05_07) % 0x1_00_00_00;
    }
    list
}

// A STAT's bytes, with this byte in place of each pad byte.
fn lay_out(string: &mut [u8], pad: u8, list: &[u32]) {
    for (i, element) in list.iter().enumerate() {
        lay_word(string, i, pad, *element);
    }
    lay_word(string, list.len(), 0, 0xff_ff_ff);
    lay_word(string, list.len().wrapping_add(1), 0, 7);
    lay_word(string, list.len().wrapping_add(2), 0x0b, 0x09_00_01);
}

fn lay_word(string: &mut [u8], i: usize, first: u8, number: u32) {
    let [_, high, middle, low] = number.to_be_bytes();
    for (at, value) in (i.wrapping_mul(4)..).zip([first, high, middle, low]) {
        if let Some(byte) = string.get_mut(at) {
            *byte = value;
        }
    }
}

fn print_list(rt: &impl Print, pad: u8, list: &[u32], n: usize) -> io::Result<()> {
    let mut string = [0; ROOM];
    lay_out(&mut string, pad, list);
    let bytes = string.get(..n).unwrap_or(&[]);
    let pdu = decode(256, bytes);
    let again = encode_again(256, pdu, bytes);
    let end = list.len();
    println!(rt;
        "{n} bytes, pads {pad:02X}: {}{again}; {} elements as laid out, the ends {}, {}, {}",
        Found(pdu),
        as_laid_out(bytes, list),
        Element(Stat::element(bytes, 0)),
        Element(Stat::element(bytes, end.saturating_sub(1))),
        Element(Stat::element(bytes, end))
    )
}

fn as_laid_out(bytes: &[u8], list: &[u32]) -> u32 {
    let mut count: u32 = 0;
    for (i, &element) in list.iter().enumerate() {
        if Stat::element(bytes, i).is_some_and(|p| p.ahead(SeqNo(element)) == 0) {
            count = count.saturating_add(1);
        }
    }
    count
}

pub fn print_lists(rt: &impl Print) -> io::Result<()> {
    let list = longest_list();
    for (count, n) in [(67, 280), (ELEMENTS, 2_012)] {
        for pad in [0x00, 0xff] {
            print_list(rt, pad, list.get(..count).unwrap_or(&[]), n)?;
        }
    }
    for (bytes, i) in [
        (&b"\x00\x00\x00\x01\x00\x00\x00\x0a\x0b\x00\x00\x02"[..], 0),
        (LIST_OF_TWO, 0),
        (LIST_OF_TWO, 1),
        (LIST_OF_TWO, 2),
        (LIST_OF_TWO, usize::MAX),
    ] {
        println!(rt;
            "element {i} of {}: {}",
            Hex(bytes),
            Element(Stat::element(bytes, i))
        )?;
    }
    Ok(())
}
