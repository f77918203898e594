// 16 messages of 256 bytes, areas longer than needed: the transmitter through its answers in their order, and stopping.
use crate::bench::Bench;
use crate::lent::{Lent, Sizes};
use crate::place::Place::{Ms, Pa, Pd, Running, S, Waiting};
use crate::watch::Watch;
use end::Params;
use std::alloc::Global;
use std::io;

const PARAMS: Params = Params {
    credit: 16,
    keep: 16,
    longest: 256,
    maxstat: 67,
    maxpd: 3,
};

pub fn run<R: Print>(rt: &R, alloc: Global) -> io::Result<()> {
    let sizes = Sizes::of(PARAMS).longer(3);
    let mut lent = Lent::new(alloc, sizes)?;
    let mut bench = Bench::new(rt, PARAMS, &mut lent, Watch::new(alloc, sizes)?);
    bench.title("C and B 16, k 256, MaxPD 3, each area 3 longer than needed")?;
    bench.open("open with n 5, G 2", 5, 2)?;
    submitting(&mut bench)?;
    first_sends(&mut bench)?;
    sends_held(&mut bench)?;
    resends(&mut bench)?;
    resends_and_sends(&mut bench)?;
    stopped(&mut bench)?;
    polls(&mut bench)?;
    full(&mut bench)
}

fn submitting<R: Print>(bench: &mut Bench<R>) -> io::Result<()> {
    bench.send("send with nothing kept into no bytes", 0)?;
    bench.submit("submit the empty message", b"")?;
    bench.submit("submit A", b"A")?;
    bench.submit("submit AB", b"AB")?;
    bench.submit("submit ABC", b"ABC")?;
    bench.submit("submit ABCD", b"ABCD")?;
    bench.submit("submit 257 bytes", &[0x41; 257])
}

fn first_sends<R: Print>(bench: &mut Bench<R>) -> io::Result<()> {
    bench.send("send the empty message", 64)?;
    bench.send("send A", 64)?;
    bench.send("send AB without credit into no bytes", 0)?;
    bench.set(&[(Ms, 21)]);
    bench.send("send AB into 7 bytes", 7)?;
    bench.send("send AB", 64)
}

fn sends_held<R: Print>(bench: &mut Bench<R>) -> io::Result<()> {
    bench.send("send ABC after MaxPD into no bytes", 0)?;
    bench.set(&[(Ms, 8)]);
    bench.send("send ABC after MaxPD without credit", 64)?;
    bench.set(&[(Ms, 21)]);
    bench.poll("poll", 64)?;
    bench.send("send ABC", 64)?;
    bench.send("send ABCD", 64)?;
    bench.set(&[(Pd, 3)]);
    bench.send("send with all sent after MaxPD", 64)
}

fn resends<R: Print>(bench: &mut Bench<R>) -> io::Result<()> {
    bench.poll("poll", 64)?;
    bench.set(&[(Ms, 5), (Waiting(3), 1), (Waiting(1), u32::MAX)]);
    bench.send("resend into 7 bytes", 7)?;
    bench.send("resend the lowest, without credit", 64)?;
    bench.set(&[(Pd, 3)]);
    bench.send("resend after MaxPD into no bytes", 0)?;
    bench.set(&[(Pd, 0)]);
    bench.send("resend the other", 64)?;
    bench.send("send with all sent, none waiting, no credit", 64)
}

fn resends_and_sends<R: Print>(bench: &mut Bench<R>) -> io::Result<()> {
    bench.submit("submit EF", b"EF")?;
    bench.send("send EF without credit", 64)?;
    bench.set(&[(Ms, 11), (Waiting(2), 9)]);
    bench.send("resend AB before EF", 64)?;
    bench.send("send EF with the last credit", 64)
}

fn stopped<R: Print>(bench: &mut Bench<R>) -> io::Result<()> {
    bench.set(&[(Running, 0)]);
    bench.submit("stopped: submit 257 bytes", &[0x41; 257])?;
    bench.send("stopped: send with all sent", 64)?;
    bench.poll("stopped: poll into no bytes", 0)?;
    bench.take("stopped: take with nothing in order", 64)?;
    bench.set(&[(S, 16_777_227)]);
    bench.probe("stopped, and VT(S) 2^24 more")?;
    bench.open("stopped: open with n 9, G 0", 9, 0)
}

// Outstanding polls are 10 - VT(PA) at first, modulo 2^24.
fn polls<R: Print>(bench: &mut Bench<R>) -> io::Result<()> {
    bench.set(&[(Pa, 8_388_620), (Pd, 2)]);
    bench.poll("poll with 8,388,606 outstanding into 7 bytes", 7)?;
    bench.poll("poll with 8,388,606 outstanding", 64)?;
    bench.poll("poll with 8,388,607 outstanding into no bytes", 0)?;
    bench.set(&[(Running, 0)]);
    bench.poll("stopped: poll with 8,388,607 outstanding", 64)?;
    bench.set(&[(Pa, 8_388_619)]);
    bench.poll("stopped: poll with 8,388,608 outstanding", 64)?;
    bench.set(&[(Pa, 11), (Running, 1)]);
    bench.poll("poll with none outstanding", 64)
}

fn full<R: Print>(bench: &mut Bench<R>) -> io::Result<()> {
    bench.fill("submit the empty message until full")?;
    bench.submit("submit A when full", b"A")?;
    bench.submit("submit 257 bytes when full", &[0x41; 257])
}
