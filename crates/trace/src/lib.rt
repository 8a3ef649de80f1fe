// Reads a trace, runs its records on a machine, and prints the lines of the run.
#![tactic(auto)]

pub mod machine;
pub mod run;

pub use lines::{Line, Output, Refused};
pub use machine::{Elapsed, Machine};
pub use records::{LONGEST_TRACE, Reader, Record, encoding_reads_back};
pub use run::run_trace;
