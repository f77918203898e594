// Opening: parameters out of range, and areas that are too short.
use crate::bench::Bench;
use crate::lent::{Lent, Sizes};
use crate::place::Place::{
    A, Credit, First, H, Head, Keep, Kept, Longest, Mark, MaxPd, MaxStat, Mr, Ms, Pa, Pd, Ps, R,
    Running, S, T, Waiting,
};
use crate::watch::Watch;
use end::Params;
use std::alloc::Global;
use std::io;

const PARAMS: Params = Params {
    credit: 4,
    keep: 3,
    longest: 2,
    maxstat: 3,
    maxpd: 4,
};

// Memory that is long enough also where C or B is 1,025, or k 4,097 with C and B 1, so that the range alone refuses them.
const PAST_THE_RANGE: Params = Params {
    credit: 1_025,
    keep: 1_025,
    longest: 4,
    ..PARAMS
};

pub fn out_of_range<R: Print>(rt: &R, alloc: Global) -> io::Result<()> {
    let sizes = Sizes::of(PAST_THE_RANGE);
    let mut lent = Lent::new(alloc, sizes)?;
    let mut bench = Bench::new(rt, PARAMS, &mut lent, Watch::new(alloc, sizes)?);
    bench.title("parameters out of range")?;
    bench.open_with("C", Credit, &[0, 1_025, u32::MAX])?;
    bench.set(&[(Credit, 4)]);
    bench.open_with("B", Keep, &[0, 1_025, u32::MAX])?;
    bench.set(&[(Keep, 1), (Credit, 1)]);
    bench.open_with("k", Longest, &[4_097, u32::MAX])?;
    bench.set(&[(Longest, 2)]);
    bench.open_with("MaxSTAT", MaxStat, &[0, 1, 2, 4, 66, 68, 69])?;
    bench.set(&[(MaxStat, 3)]);
    bench.open_with("MaxPD", MaxPd, &[0, 1_025, u32::MAX])?;
    bench.set(&[(MaxPd, 4)]);
    bench.open("open with n 16,777,216", 16_777_216, 0)?;
    bench.open("open with n 4,294,967,295", u32::MAX, 0)?;
    bench.open("open with G 1,025", 0, 1_025)?;
    bench.open("open with all in range", 0, 0)
}

// An end with these areas, as an opening with n 0 and G 0 would leave it.
fn with_areas<R: Print>(rt: &R, alloc: Global, name: &str, sizes: Sizes) -> io::Result<()> {
    let mut lent = Lent::new(alloc, sizes)?;
    let mut bench = Bench::new(rt, PARAMS, &mut lent, Watch::new(alloc, sizes)?);
    bench.set(&[
        (Running, 1),
        (S, 0),
        (A, 0),
        (Ms, 0),
        (Ps, 0),
        (Pa, 1),
        (Pd, 0),
    ]);
    bench.set(&[
        (Kept, 0),
        (First, 0),
        (T, 0),
        (R, 0),
        (H, 0),
        (Mr, 4),
        (Head, 0),
    ]);
    bench.set(&[(Waiting(0), 0), (Waiting(1), 0), (Waiting(2), 0)]);
    bench.set(&[(Mark(0), 0), (Mark(1), 0), (Mark(2), 0), (Mark(3), 0)]);
    bench.probe_and_open(name)
}

pub fn too_short<R: Print>(rt: &R, alloc: Global) -> io::Result<()> {
    let just = Sizes::of(PARAMS);
    println!(rt; "areas one short, each alone: submit, send, poll, take, open")?;
    with_areas(rt, alloc, "entries", Sizes { entries: 2, ..just })?;
    with_areas(
        rt,
        alloc,
        "kept bytes",
        Sizes {
            kept_bytes: 5,
            ..just
        },
    )?;
    with_areas(rt, alloc, "marks", Sizes { marks: 3, ..just })?;
    with_areas(rt, alloc, "received lengths", Sizes { lengths: 3, ..just })?;
    with_areas(
        rt,
        alloc,
        "received bytes",
        Sizes {
            received_bytes: 7,
            ..just
        },
    )?;
    with_areas(rt, alloc, "none", just)
}
