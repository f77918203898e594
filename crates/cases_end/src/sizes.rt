// The smallest parameters and the largest.
use crate::bench::Bench;
use crate::lent::{Lent, Sizes};
use crate::place::Place::{A, First, H, Head, Kept, Mr, Ms, R, T};
use crate::watch::Watch;
use end::Params;
use std::alloc::Global;
use std::io;

const SMALLEST: Params = Params {
    credit: 1,
    keep: 1,
    longest: 0,
    maxstat: 3,
    maxpd: 1,
};

const LARGEST: Params = Params {
    credit: 1_024,
    keep: 1_024,
    longest: 4_096,
    maxstat: 67,
    maxpd: 1_024,
};

pub fn smallest<R: Print>(rt: &R, alloc: Global) -> io::Result<()> {
    let sizes = Sizes::of(SMALLEST);
    let mut lent = Lent::new(alloc, sizes)?;
    let mut bench = Bench::new(rt, SMALLEST, &mut lent, Watch::new(alloc, sizes)?);
    bench.title("C, B and MaxPD 1, k 0, MaxSTAT 3")?;
    bench.open("open with n 0, G 0", 0, 0)?;
    smallest_transmitter(&mut bench)?;
    smallest_receiver(&mut bench)
}

fn smallest_transmitter<R: Print>(bench: &mut Bench<R>) -> io::Result<()> {
    bench.submit("submit a byte", b"A")?;
    bench.submit("submit the empty message", b"")?;
    bench.submit("submit it again", b"")?;
    bench.submit("submit a byte when full", b"A")?;
    bench.send("send without credit", 4)?;
    bench.set(&[(Ms, 1)]);
    bench.send("send into 3 bytes", 3)?;
    bench.send("send into 4 bytes", 4)?;
    bench.send("send with all sent", 4)?;
    bench.set(&[(A, 1), (Kept, 0), (Ms, 2)]);
    bench.submit("submit after a release", b"")?;
    bench.send("send with MaxPD sent since the poll", 4)?;
    bench.poll("poll into 7 bytes", 7)?;
    bench.poll("poll into 8 bytes", 8)?;
    bench.send("send after the poll", 4)
}

fn smallest_receiver<R: Print>(bench: &mut Bench<R>) -> io::Result<()> {
    bench.take("take with nothing received", 0)?;
    bench.receive(0, b"");
    bench.set(&[(R, 1), (H, 1)]);
    bench.take("take the empty message into no bytes", 0)?;
    bench.take("take again", 0)
}

pub fn largest<R: Print>(rt: &R, alloc: Global) -> io::Result<()> {
    let sizes = Sizes::of(LARGEST);
    let mut lent = Lent::new(alloc, sizes)?;
    let mut bench = Bench::new(rt, LARGEST, &mut lent, Watch::new(alloc, sizes)?);
    bench.title("C, B and MaxPD 1,024, k 4,096, MaxSTAT 67")?;
    bench.open("open with n 16,777,215, G 1,024", 16_777_215, 1_024)?;
    largest_transmitter(&mut bench)?;
    largest_receiver(&mut bench)
}

fn largest_transmitter<R: Print>(bench: &mut Bench<R>) -> io::Result<()> {
    bench.set(&[(First, 1_023)]);
    bench.submit("submit 4,097 bytes", &[0x41; 4_097])?;
    bench.submit("submit 4,096 bytes", &[0x42; 4_096])?;
    bench.submit("submit CD", b"CD")?;
    bench.fill("submit the empty message until full")?;
    bench.send("send into 4,099 bytes", 4_099)?;
    bench.send("send into 4,100 bytes", 4_100)?;
    bench.send("send CD", 8)?;
    bench.poll("poll", 8)
}

fn largest_receiver<R: Print>(bench: &mut Bench<R>) -> io::Result<()> {
    bench.set(&[(Head, 1_023), (R, 1), (H, 1)]);
    bench.receive(1_023, &[0x45; 4_096]);
    bench.receive(0, b"FG");
    bench.take("take into 4,095 bytes", 4_095)?;
    bench.take("take into 4,096 bytes", 4_096)?;
    bench.take("take FG", 4_096)?;
    bench.take("take again", 4_096)
}
