// The device of a slot that holds nothing.
ghost use Rattle.std.specs.Prelude.{refl};
ghost use Rattle.rules.specs.Device.{empty_device};
ghost use Rattle.rules.specs.TickLaws.{empty_lawful};

use crate::device::{Device, NO_BYTE};

#[derive(Clone, Copy, Debug, PartialEq, Eq)]
pub struct Empty;

impl Device for Empty {
    const WIDTH: u16 = 1;

    ghost WIDTH = { 1 };

    ghost State = { Unit {0} };

    ghost meaning = { empty_device };

    ghost state = { λ _. tt };

    fn skip(&mut self, _n: u64) {}

    fn announce(&self) -> Option<u64> {
        None
    }

    fn level(&self) -> bool {
        false
    }

    fn read(&mut self, _offset: u16) -> u8 {
        NO_BYTE
    }

    fn write(&mut self, _offset: u16, _byte: u8) {}

    ghost width_meant = { refl };

    ghost lawful = { empty_lawful };
}
