// "PDU layouts" and "Answers" of docs/RULES.md, run: byte strings of every type and length, whole and damaged, are decoded, and what decodes is encoded
// again; then each encoder is asked, with all that refuses it. A line says what was asked and what came out; tools/cases_pdu.py worked the file stdout
// out from the rules.
#![tactic(auto)]

mod again;
mod decoders;
mod encoders;
mod lists;
mod show;
mod sweeps;

use std::io;

fn main(rt: HostRuntime) -> io::Result<()> {
    decoders::print_strings(&rt)?;
    decoders::print_long(&rt)?;
    lists::print_lists(&rt)?;
    sweeps::print_types(&rt)?;
    sweeps::print_damaged(&rt)?;
    encoders::print_sds(&rt)?;
    encoders::print_polls(&rt)?;
    encoders::print_stats(&rt)?;
    encoders::print_ustats(&rt)
}
