// The two chips of the board: the slave's request is the master's input 2.
ghost use Rattle.std.specs.Prelude.{◌≡◌, false, if◌then◌else◌, nat_eq};
ghost use Rattle.rules.specs.I8259 as rules;
ghost use Rattle.i8259.specs.Views.{offset, chip_of, with_chip, master_levels, slave_levels};

use crate::bit::Input;
use crate::chip::{Chip, Offset};
use std::marker::Model;

// The master's input that takes the slave's request.
const CASCADE_INPUT: Input = Input { number: 2 };

#[derive(Clone, Copy, Debug, PartialEq, Eq)]
pub enum Which {
    Master,
    Slave,
}

#[derive(Clone, Copy, Debug, PartialEq, Eq)]
pub struct Pair {
    master: Chip,
    slave: Chip,
}

// In contracts a pair is the rules' pair.
impl Model for Pair {
    ghost use Rattle.rules.specs.I8259 as rules;

    ghost Value = { rules.Pair };

    ghost view = { λ p. record { master = p.master; slave = p.slave } };

    ghost inverse = { λ p. record { master = p.master; slave = p.slave } };
}

// The lines as a number are two bytes: lines 0 to 7 are the master's inputs, and lines 8 to 15 the slave's.
fn master_levels(lines: u16, slave_requests: bool) -> u8
    ensures { result ≡ master_levels lines slave_requests }
{
    let [levels, _] = lines.to_le_bytes();
    if slave_requests {
        CASCADE_INPUT.set(levels)
    } else {
        CASCADE_INPUT.clear(levels)
    }
}

fn slave_levels(lines: u16) -> u8
    ensures { result ≡ slave_levels lines }
{
    let [_, levels] = lines.to_le_bytes();
    levels
}

impl Pair {
    pub fn power_on() -> Pair
        ensures { result ≡ record { master = rules.power_on_chip; slave = rules.power_on_chip } }
    {
        Pair {
            master: Chip::power_on(),
            slave: Chip::power_on(),
        }
    }

    // A pair at power on whose inputs already stand at the lines' levels. Nothing requests, so the cascade input is low.
    pub fn with_inputs(lines: u16) -> Pair
        ensures { result ≡ rules.standing_pair (λ l. (if nat_eq l rules.cascade_input then false else rules.bit lines l)) }
    {
        Pair {
            master: Chip::with_inputs(master_levels(lines, false)),
            slave: Chip::with_inputs(slave_levels(lines)),
        }
    }

    // A copy of one of the chips.
    pub fn chip(&self, which: Which) -> Chip
        ensures { result ≡ chip_of which self.now }
    {
        match which {
            Which::Master => self.master,
            Which::Slave => self.slave,
        }
    }

    // Gives the lines' levels to the inputs: bit l of `lines` is line l. Bit 2 has no effect, since the slave's request,
    // as it stands once the slave is driven, is the master's input 2.
    pub fn drive(&mut self, lines: u16)
        ensures { self.new ≡ rules.drive_lines (rules.bit lines) self.old }
    {
        self.slave.drive_all(slave_levels(lines));
        let levels = master_levels(lines, self.slave.requests());
        self.master.drive_all(levels);
    }

    // Whether the pair asks for an acknowledge.
    pub fn requests(&self) -> bool
        ensures { result ≡ rules.requests self.now.master }
    {
        self.master.requests()
    }

    // Whether the slave answers the acknowledge.
    fn through_cascade(&self) -> bool
        ensures { result ≡ rules.through_cascade self.now }
    {
        self.master.request() == Some(CASCADE_INPUT)
    }

    pub fn acknowledge(&mut self) -> u8
        ensures vector { result ≡ rules.vector self.old }
        ensures served { self.new ≡ rules.acknowledged self.old }
    {
        let through_cascade = self.through_cascade();
        let vector = self.master.acknowledge();
        if through_cascade {
            self.slave.acknowledge()
        } else {
            vector
        }
    }

    pub fn read(&self, which: Which, at: Offset) -> u8
        ensures { result ≡ rules.read_chip (offset at) (chip_of which self.now) }
    {
        self.chip(which).read(at)
    }

    pub fn write(&mut self, which: Which, at: Offset, byte: u8)
        ensures { self.new ≡ with_chip which (rules.write_chip (offset at) byte (chip_of which self.old)) self.old }
    {
        // A method that lends the chip would hold this match and have this one caller.
        match which {
            Which::Master => self.master.write(at, byte),
            Which::Slave => self.slave.write(at, byte),
        }
    }
}
