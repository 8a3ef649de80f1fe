// Mixtures of calls on new boards: what a program runs, and what is promised of every mixture.
#![tactic(auto)]

pub mod side_by_side;
pub mod steps;

pub use side_by_side::{SideBySide, run_side_by_side};
pub use steps::{Step, run, run_new};
