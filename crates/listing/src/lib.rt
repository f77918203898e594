// Trace files: their records, and the lines that list them. A tool for a desk, which no line card runs: it has a heap.
#![tactic(auto)]

mod line;
mod listing;
mod reader;
mod run;

pub use line::push_line;
pub use listing::Listing;
pub use reader::RecordReader;
pub use run::list;
