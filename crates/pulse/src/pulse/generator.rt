// The pulse generator as a device. A skip jumps over whole counts, and means the same as single ticks.
ghost use Rattle.std.specs.Prelude.{◌≡◌, ◌≤◌, refl};
ghost use Rattle.pulse.specs.Pulse.{Counting, pulse_generator, power_on, reload_set, FlipsEveryReload};
ghost use Rattle.pulse.specs.Ports.{pulse_lawful};

use crate::pulse::Pulse;
use device::{Device, HORIZON, MODULUS, NO_BYTE, bits_of, flipped, ticks_of};

impl Pulse {
    // As at power-on: not running, low, and both values at 65,536.
    pub fn new() -> Self
        ensures { result ≡ power_on }
    {
        Pulse {
            reload: MODULUS,
            count: MODULUS,
            running: false,
            high: false,
        }
    }

    // The reload value and the count.
    pub fn counts(&self) -> (u64, u64)
        ensures reload { result.0 ≡ self.now.reload }
        ensures count { result.1 ≡ self.now.count }
        ensures within { (1 ≤ result.0) × (result.0 ≤ 65536) × (1 ≤ result.1) × (result.1 ≤ 65536) }
    {
        (self.reload, self.count)
    }
}

// A generator that is started flips its level every `reload` ticks, and at no other tick.
pub fn flips_every_reload()
    ensures { FlipsEveryReload }
{}

impl Device for Pulse {
    const WIDTH: u16 = 4;

    ghost WIDTH = { 4 };

    ghost State = { Counting };

    ghost meaning = { pulse_generator };

    ghost state = { λ p. p };

    // The present count runs down, then whole counts pass by division, and the rest is taken from a last one.
    fn skip(&mut self, n: u64) {
        if !self.running {
            return;
        }
        let n = n.min(HORIZON);
        if n < self.count {
            self.count -= n;
        } else {
            let past = n - self.count;
            self.high = flipped(self.high, past / self.reload + 1);
            self.count = self.reload - past % self.reload;
        }
    }

    // By cases, since the proof needs them anyway.
    fn announce(&self) -> Option<u64> {
        if self.running { Some(self.count) } else { None }
    }

    fn level(&self) -> bool {
        self.high
    }

    // Offsets stay numbers here and below, since any of them is answered.
    fn read(&mut self, offset: u16) -> u8 {
        match offset {
            0 => bits_of(self.count).to_le_bytes()[0],
            1 => bits_of(self.count).to_le_bytes()[1],
            2 => u8::from(self.running) + 2 * u8::from(self.high),
            3 => {
                // The read puts the level to 0, which a swap would hide.
                let high = self.high;
                self.high = false;
                u8::from(high)
            }
            _ => NO_BYTE,
        }
    }

    fn write(&mut self, offset: u16, byte: u8) {
        match offset {
            0 => {
                let [_, high] = bits_of(self.reload).to_le_bytes();
                self.reload = ticks_of(u16::from_le_bytes([byte, high]));
            }
            1 => {
                let [low, _] = bits_of(self.reload).to_le_bytes();
                self.reload = ticks_of(u16::from_le_bytes([low, byte]));
            }
            2 => {
                self.running = byte % 2 == 1;
                self.high = byte / 2 % 2 == 1;
                self.count = self.reload;
            }
            _ => {}
        }
    }

    ghost width_meant = { refl };

    ghost lawful = { pulse_lawful };
}
