// A pulse generator: a device whose level flips each time its count runs out.
#![tactic(auto)]

pub mod pulse;

pub use pulse::Pulse;
pub use pulse::generator::flips_every_reload;
