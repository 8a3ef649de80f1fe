// The lines of a run: prints them into a lent buffer.
#![tactic(auto)]

pub mod output;

pub use output::{Line, Output, Refused};
