// A square wave: a device whose level turns again and again. Its half is set at its only port.
ghost use Rattle.std.specs.Prelude.{◌≡◌, ◌+◌, ◌<◌, ◌≤◌, false, refl};
ghost use Rattle.device_tests.specs.Wave.{Wave, square_wave};
ghost use Rattle.device_tests.specs.Ports.{wave_lawful};

use device::{Device, HORIZON, NO_BYTE, flipped};
use std::marker::Model;

#[derive(Clone, Copy, Debug, PartialEq, Eq)]
pub struct SquareWave {
    // How many ticks the level stays.
    half: u64,
    // How many of them have passed.
    elapsed: u64,
    high: bool,
}

impl Model for SquareWave {
    ghost Value = { Wave };

    ghost view = { λ w. record { half = w.half; elapsed = w.elapsed; high = w.high } };

    ghost invariant = { λ w. (w.half ≤ 256) × (w.elapsed < w.half) };

    ghost inverse = { λ w. record { half = w.half; elapsed = w.elapsed; high = w.high } };
}

impl SquareWave {
    // Low, at the start of a half of `last + 1` ticks.
    pub fn new(last: u8) -> Self
        ensures { result ≡ record { half = last + 1; elapsed = 0; high = false } }
    {
        SquareWave {
            half: u64::from(last) + 1,
            elapsed: 0,
            high: false,
        }
    }

    // How many ticks the level stays, and how many of them have passed.
    pub fn progress(&self) -> (u64, u64)
        ensures half { result.0 ≡ self.now.half }
        ensures elapsed { result.1 ≡ self.now.elapsed }
        ensures within { (result.0 ≤ 256) × (result.1 < result.0) }
    {
        (self.half, self.elapsed)
    }
}

impl Device for SquareWave {
    const WIDTH: u16 = 1;

    ghost WIDTH = { 1 };

    ghost State = { Wave };

    ghost meaning = { square_wave };

    ghost state = { λ w. w };

    fn skip(&mut self, n: u64) {
        let passed = self.elapsed + n.min(HORIZON);
        self.high = flipped(self.high, passed / self.half);
        self.elapsed = passed % self.half;
    }

    fn announce(&self) -> Option<u64> {
        Some(self.half - self.elapsed)
    }

    fn level(&self) -> bool {
        self.high
    }

    fn read(&mut self, offset: u16) -> u8 {
        if offset == 0 {
            (self.half - 1) as u8
        } else {
            NO_BYTE
        }
    }

    fn write(&mut self, offset: u16, byte: u8) {
        if offset == 0 {
            *self = SquareWave::new(byte);
        }
    }

    ghost width_meant = { refl };

    ghost lawful = { wave_lawful };
}
