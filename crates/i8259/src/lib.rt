// The 8259A interrupt controller and the cascaded pair of the board, proved against the rules' definitions.
#![tactic(auto)]

pub mod bit;
pub mod chip;
pub mod pair;
pub mod priority;

pub use bit::{Bit, Input};
pub use chip::{Chip, Offset, Stage};
pub use pair::{Pair, Which};
pub use priority::first;
