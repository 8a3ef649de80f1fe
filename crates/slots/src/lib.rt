// The four device slots of a board: any four devices, and the port decoder over them.
#![tactic(auto)]

pub mod fitted;

pub use fitted::{Fitted, Slot, Slots, Target};
