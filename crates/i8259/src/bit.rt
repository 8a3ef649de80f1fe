// A bit of a byte, and the operations on it.
ghost use Rattle.std.specs.Prelude.{◌≡◌, ◌%◌, ◌<◌};
ghost use Rattle.rules.specs.I8259.{bit, with_bit, without_bit};

use std::marker::Model;

// How many bits a byte has, and so how many inputs a chip.
pub(crate) const BITS: u8 = 8;

// A bit of a byte, by its number from 0 to 7.
#[derive(Clone, Copy, Debug, PartialEq, Eq)]
pub struct Bit {
    pub(crate) number: u8,
}

// An input of a chip, by the bit that belongs to it in the chip's registers.
pub type Input = Bit;

impl Model for Bit {
    ghost use Rattle.std.specs.Prelude.{ℕ, ◌<◌};

    ghost Value = { ℕ };

    ghost view = { λ b. b.number };

    ghost invariant = { λ b. b.number < 8 };

    ghost inverse = { λ n. record { number = n } };
}

impl Bit {
    pub(crate) fn wrapping(number: u8) -> Bit
        ensures { result ≡ number % 8 }
    {
        Bit {
            number: number % BITS,
        }
    }

    pub(crate) fn is_set(self, byte: u8) -> bool
        ensures { result ≡ bit byte self }
    {
        (byte >> self.number) % 2 == 1
    }

    pub(crate) fn set(self, byte: u8) -> u8
        ensures { result ≡ with_bit byte self }
    {
        byte | 1 << self.number
    }

    pub(crate) fn clear(self, byte: u8) -> u8
        ensures { result ≡ without_bit byte self }
    {
        byte & !(1 << self.number)
    }
}

impl From<Bit> for u8 {
    ghost from_gives = { λ b number. (number ≡ b) × (number < 8) };

    fn from(bit: Bit) -> u8 {
        bit.number
    }
}
