// Devices: what the board asks of one, the device that does nothing, the divider that slows any device down, and what devices share.
#![tactic(auto)]

pub mod counts;
pub mod device;
pub mod divider;
pub mod empty;
pub mod flips;

pub use counts::{MODULUS, bits_of, ticks_of};
pub use device::{Device, HORIZON, NO_BYTE};
pub use divider::Divider;
pub use empty::Empty;
pub use flips::flipped;
