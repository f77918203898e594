// The rules of answer 17, each broken alone, and what comes close and breaks none. Of an end that keeps them all, submit, send, poll and take answer
// 9, 8, 8 and 8 in these lines, or what stands before.
use crate::bench::Bench;
use crate::lent::{Lent, Sizes};
use crate::place::Place;
use crate::place::Place::{
    A, First, H, Head, Kept, Length, Mark, MaxPd, MaxStat, Mr, Ms, Pa, Pd, Ps, R, ReceivedLength,
    Running, S, Stamp, T, Waiting,
};
use crate::watch::Watch;
use end::Params;
use std::alloc::Global;
use std::io;

const PARAMS: Params = Params {
    credit: 5,
    keep: 5,
    longest: 4,
    maxstat: 3,
    maxpd: 4,
};

pub fn run<P: Print>(rt: &P, alloc: Global) -> io::Result<()> {
    let sizes = Sizes::of(PARAMS).longer(2);
    let mut lent = Lent::new(alloc, sizes)?;
    let mut bench = Bench::new(rt, PARAMS, &mut lent, Watch::new(alloc, sizes)?);
    bench.title("no rule of 17 broken: submit, send, poll, take")?;
    transmitter_keeps(&mut bench)?;
    receiver_keeps(&mut bench)?;
    bench.title("one rule of 17 broken in each: submit, send, poll, take")?;
    numbers_broken(&mut bench)?;
    parameters_broken(&mut bench)?;
    counts_broken(&mut bench)?;
    entries_broken(&mut bench)?;
    order_broken(&mut bench)?;
    marks_broken(&mut bench)
}

// Kept from slot 3 on: 16,777,214 and 16,777,215, which are sent, and 0.
fn set_transmitter<P: Print>(bench: &mut Bench<P>) {
    bench.set(&[(S, 0), (A, 16_777_214), (Ms, 3), (Ps, 9), (Pa, 8), (Pd, 2)]);
    bench.set(&[
        (Kept, 3),
        (First, 3),
        (MaxStat, 3),
        (MaxPd, 4),
        (Running, 1),
    ]);
    for slot in 0..5 {
        bench.set(&[(Length(slot), 4), (Stamp(slot), 9), (Waiting(slot), 0)]);
    }
}

// Received from slot 2 on: 16,777,213 and 16,777,214, and 0.
fn set_receiver<P: Print>(bench: &mut Bench<P>) {
    bench.set(&[(T, 16_777_213), (R, 16_777_215), (H, 1), (Mr, 2), (Head, 2)]);
    for slot in 0..5 {
        bench.set(&[(ReceivedLength(slot), 4)]);
    }
    bench.set(&[
        (Mark(0), 1),
        (Mark(1), 0),
        (Mark(2), 1),
        (Mark(3), 1),
        (Mark(4), 0),
    ]);
}

fn with<P: Print>(bench: &mut Bench<P>, name: &str, values: &[(Place, u32)]) -> io::Result<()> {
    set_transmitter(bench);
    set_receiver(bench);
    bench.set(values);
    bench.probe(name)
}

fn also<P: Print>(bench: &mut Bench<P>, name: &str, values: &[(Place, u32)]) -> io::Result<()> {
    set_transmitter(bench);
    set_receiver(bench);
    bench.set(values);
    bench.also_probe(name)
}

fn transmitter_keeps<P: Print>(bench: &mut Bench<P>) -> io::Result<()> {
    with(bench, "as it is", &[])?;
    with(bench, "a sent message waits", &[(Waiting(4), 7)])?;
    with(
        bench,
        "stamp 2^24 of an unsent message",
        &[(Stamp(0), 16_777_216)],
    )?;
    with(
        bench,
        "stamp 2^24, length 5 where none is kept",
        &[(Stamp(1), 16_777_216), (Length(1), 5)],
    )?;
    with(bench, "VT(MS) 2^24 - 1 ahead of VT(A)", &[(Ms, 16_777_213)])?;
    with(bench, "VT(MS) is VT(A)", &[(Ms, 16_777_214)])?;
    with(bench, "B kept", &[(Kept, 5)])?;
    with(bench, "all sent", &[(S, 1)])?;
    with(bench, "none outstanding", &[(Pa, 10)])?;
    with(bench, "8,388,607 polls outstanding", &[(Pa, 8_388_619)])?;
    with(bench, "VT(PD) is MaxPD", &[(Pd, 4)])?;
    with(bench, "stopped", &[(Running, 0)])
}

fn receiver_keeps<P: Print>(bench: &mut Bench<P>) -> io::Result<()> {
    with(bench, "a mark of 255", &[(Mark(2), 255)])?;
    with(
        bench,
        "length 5 where none is received",
        &[(ReceivedLength(1), 5), (ReceivedLength(4), 5)],
    )?;
    with(bench, "none received above VT(R)", &[(Mark(0), 0)])?;
    with(
        bench,
        "VR(H) is VR(MR), the last one received",
        &[(H, 2), (Mark(1), 1)],
    )?;
    with(
        bench,
        "VR(R) and VR(H) are T",
        &[
            (R, 16_777_213),
            (H, 16_777_213),
            (Mark(2), 0),
            (Mark(3), 0),
            (Mark(0), 0),
        ],
    )
}

// Each is the number of before and 2^24.
fn numbers_broken<P: Print>(bench: &mut Bench<P>) -> io::Result<()> {
    bench.begin_line("each 2^24 more")?;
    also(bench, "VT(S)", &[(S, 16_777_216)])?;
    also(bench, "VT(A)", &[(A, 33_554_430)])?;
    also(bench, "VT(MS)", &[(Ms, 16_777_219)])?;
    also(bench, "VT(PS)", &[(Ps, 16_777_225)])?;
    also(bench, "VT(PA)", &[(Pa, 16_777_224)])?;
    also(bench, "T", &[(T, 33_554_429)])?;
    also(bench, "VR(R)", &[(R, 33_554_431)])?;
    also(bench, "VR(H)", &[(H, 16_777_217)])?;
    also(bench, "VR(MR)", &[(Mr, 16_777_218)])?;
    also(bench, "stamp of a sent message", &[(Stamp(4), 16_777_225)])?;
    bench.end_line()
}

fn parameters_broken<P: Print>(bench: &mut Bench<P>) -> io::Result<()> {
    bench.begin_line("parameters and running")?;
    also(bench, "MaxSTAT 4", &[(MaxStat, 4)])?;
    also(bench, "MaxPD 1,025", &[(MaxPd, 1_025)])?;
    also(bench, "MaxPD 0", &[(MaxPd, 0), (Pd, 0)])?;
    also(bench, "running is 2", &[(Running, 2)])?;
    bench.end_line()
}

fn counts_broken<P: Print>(bench: &mut Bench<P>) -> io::Result<()> {
    bench.begin_line("counts")?;
    also(bench, "more kept than B", &[(Kept, 6)])?;
    also(bench, "more sent than kept", &[(S, 2)])?;
    also(bench, "VT(S) behind VT(A)", &[(S, 16_777_213)])?;
    also(bench, "slot of VT(A) not in the ring", &[(First, 5)])?;
    also(bench, "8,388,608 polls outstanding", &[(Pa, 8_388_618)])?;
    also(bench, "2^24 - 1 polls outstanding", &[(Pa, 11)])?;
    also(bench, "VT(PD) above MaxPD", &[(Pd, 5)])?;
    bench.end_line()
}

fn entries_broken<P: Print>(bench: &mut Bench<P>) -> io::Result<()> {
    bench.begin_line("entries")?;
    also(bench, "an unsent message waits", &[(Waiting(0), 1)])?;
    also(bench, "an entry waits that keeps none", &[(Waiting(2), 1)])?;
    also(bench, "length 5 of a sent message", &[(Length(4), 5)])?;
    also(bench, "length 5 of an unsent message", &[(Length(0), 5)])?;
    bench.end_line()
}

fn order_broken<P: Print>(bench: &mut Bench<P>) -> io::Result<()> {
    bench.begin_line("the receiver's numbers")?;
    also(bench, "VR(R) behind T", &[(R, 16_777_212)])?;
    also(
        bench,
        "VR(H) behind VR(R)",
        &[(H, 16_777_214), (Mark(0), 0)],
    )?;
    also(bench, "VR(H) ahead of VR(MR)", &[(H, 3)])?;
    also(bench, "VR(MR) ahead of T by C - 1", &[(Mr, 1)])?;
    also(bench, "VR(MR) ahead of T by C + 1", &[(Mr, 3)])?;
    also(bench, "slot of T not in the ring", &[(Head, 5)])?;
    bench.end_line()
}

fn marks_broken<P: Print>(bench: &mut Bench<P>) -> io::Result<()> {
    bench.begin_line("marks and lengths")?;
    also(bench, "T not received", &[(Mark(2), 0)])?;
    also(bench, "VR(R) - 1 not received", &[(Mark(3), 0)])?;
    also(bench, "VR(R) received", &[(Mark(4), 1)])?;
    also(bench, "VR(H) received", &[(Mark(1), 1)])?;
    also(
        bench,
        "a number above VR(H) received",
        &[(H, 0), (Mark(0), 0), (Mark(1), 1)],
    )?;
    also(
        bench,
        "length 5 of a message in order",
        &[(ReceivedLength(2), 5)],
    )?;
    also(
        bench,
        "length 5 of a message above a gap",
        &[(ReceivedLength(0), 5)],
    )?;
    bench.end_line()
}
