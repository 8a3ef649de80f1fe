// What is known of OUT ahead of time.

// Stands for no change. A lag stays below it, so that 2^32 ticks more fit 64 bits too.
pub const NEVER: u64 = 1 << 63;

// Two plain numbers, which a call hands back in registers.
#[derive(Clone, Copy, Debug)]
pub struct Forecast {
    // The level of OUT, which it keeps until it changes.
    pub out: bool,
    // How many ticks after the forecast OUT changes; NEVER if it stays for ever.
    pub due: u64,
}
