// Numbers that wrap over rings whose sizes do not divide 2^24. What a STAT or an SD would do is done by hand.
use crate::bench::Bench;
use crate::lent::{Lent, Sizes};
use crate::place::Place::{A, First, H, Head, Kept, R, Running, Waiting};
use crate::watch::Watch;
use end::Params;
use std::alloc::Global;
use std::io;

const PARAMS: Params = Params {
    credit: 5,
    keep: 3,
    longest: 4,
    maxstat: 5,
    maxpd: 1_024,
};

pub fn run<P: Print>(rt: &P, alloc: Global) -> io::Result<()> {
    let sizes = Sizes::of(PARAMS).longer(2);
    let mut lent = Lent::new(alloc, sizes)?;
    let mut bench = Bench::new(rt, PARAMS, &mut lent, Watch::new(alloc, sizes)?);
    bench.title("C 5, B 3, k 4, each area 2 longer than needed")?;
    bench.open("open with n 16,777,215, G 8", 16_777_215, 8)?;
    first_round(&mut bench)?;
    second_round(&mut bench)?;
    third_round(&mut bench)?;
    bench.open("open with n 16,777,213, G 0", 16_777_213, 0)?;
    takes(&mut bench)?;
    takes_past_a_gap(&mut bench)
}

fn first_round<P: Print>(bench: &mut Bench<P>) -> io::Result<()> {
    bench.submit("submit AB", b"AB")?;
    bench.submit("submit CDE", b"CDE")?;
    bench.submit("submit F", b"F")?;
    bench.submit("submit G when full", b"G")?;
    bench.send("send AB", 20)?;
    bench.send("send CDE", 20)?;
    bench.send("send F", 20)
}

// AB and CDE are released. Message 1 is in slot 2, and number modulo B would be another slot.
fn second_round<P: Print>(bench: &mut Bench<P>) -> io::Result<()> {
    bench.set(&[(A, 1), (Kept, 1), (First, 2)]);
    bench.submit("submit GHIJ", b"GHIJ")?;
    bench.submit("submit K", b"K")?;
    bench.poll("poll", 20)?;
    bench.send("send GHIJ", 20)?;
    bench.send("send K", 20)?;
    bench.set(&[(Waiting(1), 1), (Waiting(2), 1)]);
    bench.poll("poll", 20)?;
    bench.send("resend F, of slot 2, before K, of slot 1", 20)?;
    bench.send("resend K", 20)
}

// All are released. The message fills the last slot, and the area goes on behind it.
fn third_round<P: Print>(bench: &mut Bench<P>) -> io::Result<()> {
    bench.set(&[(A, 4), (Kept, 0), (First, 2)]);
    bench.send("send with all released", 20)?;
    bench.submit("submit VWXY", b"VWXY")?;
    bench.submit("submit the empty message", b"")?;
    bench.send("send VWXY", 20)?;
    bench.send("send the empty message", 20)
}

// Messages 16,777,213 to 16,777,215 and 1 are received, from slot 3 on: 0 lacks.
fn takes<P: Print>(bench: &mut Bench<P>) -> io::Result<()> {
    bench.set(&[(Head, 3), (R, 0), (H, 2)]);
    bench.receive(3, b"MN");
    bench.receive(4, b"");
    bench.receive(0, b"OPQR");
    bench.receive(2, b"S");
    bench.take("take MN into no bytes", 0)?;
    bench.take("take MN into 1 byte", 1)?;
    bench.take("take MN into 2 bytes", 2)?;
    bench.set(&[(Running, 0)]);
    bench.take("stopped: take the empty message into no bytes", 0)?;
    bench.take("stopped: take OPQR into 3 bytes", 3)?;
    bench.take("stopped: take OPQR", 20)?;
    bench.take("stopped: take at the gap into no bytes", 0)
}

fn takes_past_a_gap<P: Print>(bench: &mut Bench<P>) -> io::Result<()> {
    bench.receive(1, b"TU");
    bench.set(&[(R, 2)]);
    bench.take("take TU after the gap is filled", 20)?;
    bench.take("take S", 20)?;
    bench.take("take with all taken", 20)?;
    bench.set(&[(Head, 5)]);
    bench.take("take with all taken, the slot of T not in the ring", 20)
}
