// The rules of the listing, case by case: each is fed to the library as a file in memory, at once and in pieces of several sizes, and what comes out is
// printed. The file stdout has what the rules say; tools/cases_listing.py works it out from them alone.
#![tactic(auto)]

ghost use Rattle.std.specs.Prelude.{◌<◌};

use listing::{Listing, list};
use std::alloc::{AllocError, Global};
use std::io::{self, Write};

// A name, and a file.
const CASES: &[(&str, &[u8])] = &[
    (
        "the example",
        b"\x01\0\x08AB\0\0\x88\0\0\x05\0\x08\0\0\0\x01\x0a\0\0\x02\0\x02AB",
    ),
    ("no byte", b""),
    ("version 0", b"\0\0\x08AB\0\0\x88\0\0\x05"),
    ("version 2", b"\x02\0\x08AB\0\0\x88\0\0\x05"),
    ("version 1 alone", b"\x01"),
    ("a length cut", b"\x01\0"),
    (
        "a length cut behind a record",
        b"\x01\0\x08AB\0\0\x88\0\0\x05\0",
    ),
    ("a record cut by all its bytes", b"\x01\0\x08"),
    ("a record cut by one byte", b"\x01\0\x08AB\0\0\x88\0\0"),
    (
        "a record cut behind two",
        b"\x01\0\x08AB\0\0\x88\0\0\x05\0\0\0\x08\0\0\0\x01\x0a",
    ),
    ("a record of length 0", b"\x01\0\0"),
    (
        "SD",
        b"\x01\0\x08AB\0\0\x88\0\0\x05\0\x04\x08\xff\xff\xff\0\x08ABC\0H\0\0\0",
    ),
    (
        "POLL",
        b"\x01\0\x08\0\0\0\x01\x0a\0\0\x02\0\x08\xff\xff\xff\xff\xfa\xff\xff\xff",
    ),
    (
        "STAT",
        b"\x01\0\x0c\0\0\0\x01\0\0\0\x0a\x0b\0\0\x02\0\x14\0\0\0\x03\xff\0\0\x05\0\0\0\x01\0\0\0\x0a\x0b\0\0\x02",
    ),
    (
        "USTAT",
        b"\x01\0\x10\0\0\0\x03\0\0\0\x05\0\0\0\x10\x0c\0\0\x03",
    ),
    (
        "BAD 1",
        b"\x01\0\x01A\0\x07\0\0\0\x01\x0a\0\0\0\x09\0\0\0\x01\x0a\0\0\x02\0\0\x10\0\0\0\x01\x0a\0\0\x02\0\0\0\x01\x0a\0\0\x02\0\x08\0\0\0\x0a\x0b\0\0\x02\0\x20\0\0\0\x03\0\0\0\x05\0\0\0\x10\x0c\0\0\x03\0\0\0\x03\0\0\0\x05\0\0\0\x10\x0c\0\0\x03\0\x04\xc8\0\0\0",
    ),
    ("BAD 2", b"\x01\0\x04\0\0\0\0\0\x08ABCD\x10\0\0\x05"),
    (
        "BAD 3",
        b"\x01\0\x04\x01\0\0\0\0\x04\x02\0\0\0\0\x04\x03\0\0\0\0\x04\x04\0\0\0\0\x04\x05\0\0\0\0\x04\x06\0\0\0\0\x04\x07\0\0\0\0\x04\x09\0\0\0\0\x04\x0d\0\0\0\0\x04\x0e\0\0\0\0\x04\x0f\0\0\0",
    ),
];

// The listing of this file, in pieces of so many bytes.
fn listing_by(alloc: Global, file: &[u8], size: usize) -> Result<String, AllocError>
    requires { 0 < size }
{
    let mut listing = Listing::new(alloc);
    let mut text = String::new(alloc);
    for piece in file.chunks(size) {
        listing.feed(piece, &mut text)?;
    }
    listing.finish(&mut text)?;
    Ok(text)
}

fn print_case<R: Print + AllocGlobal>(rt: &R, name: &str, file: &[u8]) -> io::Result<()> {
    println!(rt; "-- {name}")?;
    let mut whole = Vec::new(rt.alloc());
    let mut input = file;
    list(rt.alloc(), &mut input, &mut whole)?;
    for size in [1, 7, 4_096] {
        let pieces = listing_by(rt.alloc(), file, size)?;
        if pieces.as_bytes() != whole.as_slice() {
            println!(rt; "another listing in pieces of {size}")?;
        }
    }
    io::writer(rt).write_all(whole.as_slice())
}

// Adds a record with these bytes.
fn push_record(file: &mut Vec<u8>, bytes: &[u8]) -> Result<(), AllocError> {
    let [.., high, low] = bytes.len().to_be_bytes();
    file.extend_from_slice(&[high, low])?;
    file.extend_from_slice(bytes)
}

// A file of one record: so many bytes of information, and the last word of an SD.
fn sd_file(alloc: Global, information: usize, last: &[u8]) -> Result<Vec<u8>, AllocError> {
    let mut sd = vec![in alloc; 0; information]?;
    sd.extend_from_slice(last)?;
    let mut file = vec![in alloc; 1]?;
    push_record(&mut file, sd.as_slice())?;
    Ok(file)
}

// A file of one record, a STAT as long as a record can be.
fn stat_file(alloc: Global) -> Result<Vec<u8>, AllocError> {
    let mut stat = Vec::new(alloc);
    for i in 0..16_380u32 {
        stat.extend_from_slice(&(i % 10).to_be_bytes())?;
    }
    stat.extend_from_slice(b"\0\0\0\x01\0\0\0\x0a\x0b\0\0\x02")?;
    let mut file = vec![in alloc; 1]?;
    push_record(&mut file, stat.as_slice())?;
    Ok(file)
}

// A file of two records: 65,535 bytes, the longest that its two bytes of length can say, and a POLL.
fn longest_file(alloc: Global) -> Result<Vec<u8>, AllocError> {
    let longest = vec![in alloc; 0; 65_535]?;
    let mut file = vec![in alloc; 1]?;
    push_record(&mut file, longest.as_slice())?;
    push_record(&mut file, b"\0\0\0\x01\x0a\0\0\x02")?;
    Ok(file)
}

fn main(rt: HostRuntime) -> io::Result<()> {
    for &(name, file) in CASES {
        print_case(&rt, name, file)?;
    }
    let alloc = rt.alloc();
    print_case(
        &rt,
        "the longest message",
        sd_file(alloc, 4_096, b"\x08\0\0\x01")?.as_slice(),
    )?;
    print_case(
        &rt,
        "a message over k",
        sd_file(alloc, 4_100, b"\xc8\0\0\x01")?.as_slice(),
    )?;
    print_case(&rt, "16,380 elements", stat_file(alloc)?.as_slice())?;
    print_case(&rt, "65,535 bytes", longest_file(alloc)?.as_slice())
}
