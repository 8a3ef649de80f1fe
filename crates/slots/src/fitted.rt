// The four device slots, and what a port reaches.
ghost use Rattle.std.specs.Prelude.{◌≡◌, min};
ghost use Rattle.rules.specs.Device.{horizon};
ghost use Rattle.rules.specs.Board as rules;
ghost use Rattle.slots.specs.Slots.{States, slot_number, target_of, levels_of, ticked, slot_byte, slots_after_read, slots_after_write, Foretold};
ghost use Rattle.slots.specs.Offsets.{offset_from, chip_offset_from};

use device::{Device, NO_BYTE};
use i8259::{Offset, Which};

const MASTER_PORT: u16 = 0x20;

const SLAVE_PORT: u16 = 0xA0;

const FIRST_PORT_0: u16 = 0x40;

const FIRST_PORT_1: u16 = 0x70;

const FIRST_PORT_2: u16 = 0x3F8;

const FIRST_PORT_3: u16 = 0x2F8;

// One of the four slots.
#[derive(Clone, Copy, Debug, PartialEq, Eq, PartialOrd, Ord)]
pub enum Slot {
    Zero,
    One,
    Two,
    Three,
}

impl Slot {
    pub const ALL: [Slot; 4] = [Slot::Zero, Slot::One, Slot::Two, Slot::Three];
}

// What a port belongs to, with the offset there.
#[derive(Clone, Copy, Debug, PartialEq, Eq)]
pub enum Target {
    Chip(Which, Offset),
    Slot(Slot, u16),
    OpenBus,
}

// What stands in the four slots of a board. A board is proved for all slots that keep this contract.
pub trait Slots {
    ghost S0: { Type 0 };

    ghost S1: { Type 0 };

    ghost S2: { Type 0 };

    ghost S3: { Type 0 };

    ghost fitting: { rules.Fitting S0 S1 S2 S3 };

    ghost states: { Self → States S0 S1 S2 S3 };

    // A port is tried against the controllers and then against the slots.
    fn target(port: u16) -> Target
        ensures { target_of result ≡ rules.target fitting port };

    fn levels(&self) -> [bool; 4]
        ensures { result ≡ levels_of fitting (states self.now) };

    // n ticks of each device; an n above 2^32 counts as 2^32.
    fn skip(&mut self, n: u64)
        ensures { states self.new ≡ ticked fitting (min n horizon) (states self.old) };

    // For how many ticks the slot's level stays for sure.
    fn announce(&self, slot: Slot) -> Option<u64>
        ensures { Foretold fitting (slot_number slot) result (states self.now) };

    // The byte that the target's slot gives; FFh where the target is no slot.
    fn read(&mut self, target: Target) -> u8
        ensures gives { result ≡ slot_byte fitting target (states self.old) }
        ensures leaves { states self.new ≡ slots_after_read fitting target (states self.old) };

    fn write(&mut self, target: Target, byte: u8)
        ensures { states self.new ≡ slots_after_write fitting target byte (states self.old) };
}

// Any four devices. Each is of its own type, so they are no array.
#[derive(Drop)]
pub struct Fitted<D0, D1, D2, D3> {
    pub slot_0: D0,
    pub slot_1: D1,
    pub slot_2: D2,
    pub slot_3: D3,
}

// The port's offset from `first`, if it is one of `ports` ports.
fn offset_from(port: u16, first: u16, ports: u16) -> Option<u16>
    ensures { result ≡ offset_from port first ports }
{
    port.checked_sub(first).filter(|&offset| offset < ports)
}

// The same for the two ports of a controller. The offset is one of two here, so a conversion that may fail would say less.
fn chip_offset_from(port: u16, first: u16) -> Option<Offset>
    ensures { result ≡ chip_offset_from port first }
{
    offset_from(port, first, 2).map(|offset| match offset {
        0 => Offset::Zero,
        _ => Offset::One,
    })
}

impl<D0: Device, D1: Device, D2: Device, D3: Device> Slots for Fitted<D0, D1, D2, D3> {
    ghost S0 = { D0.State };

    ghost S1 = { D1.State };

    ghost S2 = { D2.State };

    ghost S3 = { D3.State };

    ghost fitting = { record { kind_0 = D0.meaning; kind_1 = D1.meaning; kind_2 = D2.meaning; kind_3 = D3.meaning } };

    ghost states = { λ s. record { slot_0 = D0.state s.slot_0; slot_1 = D1.state s.slot_1; slot_2 = D2.state s.slot_2; slot_3 = D3.state s.slot_3 } };

    // A table would have a line for each of the six too, and a search over it.
    fn target(port: u16) -> Target {
        if let Some(at) = chip_offset_from(port, MASTER_PORT) {
            Target::Chip(Which::Master, at)
        } else if let Some(at) = chip_offset_from(port, SLAVE_PORT) {
            Target::Chip(Which::Slave, at)
        } else if let Some(offset) = offset_from(port, FIRST_PORT_0, D0::WIDTH) {
            Target::Slot(Slot::Zero, offset)
        } else if let Some(offset) = offset_from(port, FIRST_PORT_1, D1::WIDTH) {
            Target::Slot(Slot::One, offset)
        } else if let Some(offset) = offset_from(port, FIRST_PORT_2, D2::WIDTH) {
            Target::Slot(Slot::Two, offset)
        } else if let Some(offset) = offset_from(port, FIRST_PORT_3, D3::WIDTH) {
            Target::Slot(Slot::Three, offset)
        } else {
            Target::OpenBus
        }
    }

    fn levels(&self) -> [bool; 4] {
        [
            self.slot_0.level(),
            self.slot_1.level(),
            self.slot_2.level(),
            self.slot_3.level(),
        ]
    }

    fn skip(&mut self, n: u64) {
        self.slot_0.skip(n);
        self.slot_1.skip(n);
        self.slot_2.skip(n);
        self.slot_3.skip(n);
    }

    fn announce(&self, slot: Slot) -> Option<u64> {
        match slot {
            Slot::Zero => self.slot_0.announce(),
            Slot::One => self.slot_1.announce(),
            Slot::Two => self.slot_2.announce(),
            Slot::Three => self.slot_3.announce(),
        }
    }

    fn read(&mut self, target: Target) -> u8 {
        match target {
            Target::Slot(Slot::Zero, offset) => self.slot_0.read(offset),
            Target::Slot(Slot::One, offset) => self.slot_1.read(offset),
            Target::Slot(Slot::Two, offset) => self.slot_2.read(offset),
            Target::Slot(Slot::Three, offset) => self.slot_3.read(offset),
            _ => NO_BYTE,
        }
    }

    fn write(&mut self, target: Target, byte: u8) {
        match target {
            Target::Slot(Slot::Zero, offset) => self.slot_0.write(offset, byte),
            Target::Slot(Slot::One, offset) => self.slot_1.write(offset, byte),
            Target::Slot(Slot::Two, offset) => self.slot_2.write(offset, byte),
            Target::Slot(Slot::Three, offset) => self.slot_3.write(offset, byte),
            _ => {}
        }
    }
}
