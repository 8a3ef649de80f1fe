// The board: four devices, two interrupt controllers and a queue of timed writes, whose time jumps from event to event.
#![tactic(auto)]

pub mod board;

pub use board::Board;
