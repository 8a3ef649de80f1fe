// What a pulse generator holds.
ghost use Rattle.std.specs.Prelude.{◌≤◌};
ghost use Rattle.pulse.specs.Pulse.{Counting};

use std::marker::Model;

pub mod generator;

#[derive(Clone, Copy, Debug, PartialEq, Eq)]
pub struct Pulse {
    // How many ticks a whole count takes; 65,536 stands as sixteen zero bits at the ports.
    reload: u64,
    // After how many ticks the level flips.
    count: u64,
    // A generator that stands still keeps its count, which its ports show.
    running: bool,
    high: bool,
}

// Contracts see a generator as the state of its meaning, in specs/Pulse.antt.
impl Model for Pulse {
    ghost Value = { Counting };

    ghost view = { λ p. record { reload = p.reload; count = p.count; running = p.running; high = p.high } };

    ghost invariant = { λ p. (1 ≤ p.reload) × (p.reload ≤ 65536) × (1 ≤ p.count) × (p.count ≤ 65536) };

    ghost inverse = { λ c. record { reload = c.reload; count = c.count; running = c.running; high = c.high } };
}
