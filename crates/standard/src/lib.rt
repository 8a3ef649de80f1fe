// The board behind a trace, and the standard fitting that the runner runs traces on.
#![tactic(auto)]

pub mod fitting;
pub mod operated;

pub use fitting::{run_standard, standard_board};
pub use operated::Operated;
