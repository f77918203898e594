// One end, run: open, submit, send, poll and take, through every answer that each can give, in the order that docs/RULES.md gives. A line has the
// case, the answer, the count where a call gives one, and each number and each cell of the lent areas that is another now; what a case sets by hand
// it does not tell. tools/cases_end.py works out from the rules what the file stdout has.
#![tactic(auto)]

mod bench;
mod lent;
mod opening;
mod place;
mod ring;
mod rules;
mod sizes;
mod walk;
mod watch;

use std::io;

fn main(rt: HostRuntime) -> io::Result<()> {
    let alloc = rt.alloc();
    sizes::smallest(&rt, alloc)?;
    sizes::largest(&rt, alloc)?;
    opening::out_of_range(&rt, alloc)?;
    opening::too_short(&rt, alloc)?;
    walk::run(&rt, alloc)?;
    ring::run(&rt, alloc)?;
    rules::run(&rt, alloc)
}
