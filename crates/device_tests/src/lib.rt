// A device of one's own, and what dividers do over it.
#![tactic(auto)]

pub mod square_wave;
#[cfg(test)]
mod tests;

pub use square_wave::SquareWave;
