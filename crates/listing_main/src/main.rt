// Lists the trace file that stands on standard input. It only moves bytes: the contract of `list` says what is written.
#![tactic(auto)]

use listing::list;
use std::io;

fn main(rt: HostRuntime) -> io::Result<()> {
    list(rt.alloc(), &mut rt.reader(), &mut io::writer(&rt))
}
