// The console's replies, and the lines that they are printed as.
#![tactic(auto)]

mod line;
mod reply;

pub use line::{LONGEST_LINE, Line};
pub use reply::{Registers, Reply, State};
