// A pair and a chip under test, and what a word of a script shows of them.
ghost use Rattle.std.specs.Prelude.{◌≡◌};

use crate::script::{ChipWord, PairWord, Word};
use i8259::{Chip, Pair, Which, first};
use std::fmt;

#[derive(Clone, Copy)]
pub enum Shown {
    Byte(u8),
    Flag(bool),
    Input(Option<u8>),
    OneChip(Registers),
    TwoChips(Registers, Registers),
}

#[derive(Clone, Copy)]
pub struct Registers {
    irr: u8,
    isr: u8,
    imr: u8,
}

#[derive(Drop)]
pub struct Bench {
    pair: Pair,
    chip: Chip,
}

impl From<&Chip> for Registers {
    ghost from_gives = { λ chip shown. (shown.irr ≡ chip.now.irr) × (shown.isr ≡ chip.now.isr) × (shown.imr ≡ chip.now.imr) };

    fn from(chip: &Chip) -> Registers {
        Registers {
            irr: chip.irr(),
            isr: chip.isr(),
            imr: chip.imr(),
        }
    }
}

impl Bench {
    pub fn new() -> Bench {
        Bench {
            pair: Pair::power_on(),
            chip: Chip::power_on(),
        }
    }

    // What the word shows, if it shows something.
    pub fn play(&mut self, word: Word) -> Option<Shown> {
        match word {
            Word::OnPair(word) => play_pair(&mut self.pair, word),
            Word::OnChip(word) => play_chip(&mut self.chip, word),
            Word::First(lowest, register) => Some(Shown::Input(first(lowest, register))),
        }
    }
}

// A pair and a chip take other ports and levels, and a trait over both would say each of their methods once more.
fn play_pair(pair: &mut Pair, word: PairWord) -> Option<Shown> {
    match word {
        PairWord::PowerOn => *pair = Pair::power_on(),
        PairWord::WithInputs(lines) => *pair = Pair::with_inputs(lines),
        PairWord::Lines(lines) => pair.drive(lines),
        PairWord::Write(which, at, byte) => pair.write(which, at, byte),
        PairWord::Read(which, at) => return Some(Shown::Byte(pair.read(which, at))),
        PairWord::Acknowledge => return Some(Shown::Byte(pair.acknowledge())),
        PairWord::Requests => return Some(Shown::Flag(pair.requests())),
        PairWord::Show => {
            let master = Registers::from(&pair.chip(Which::Master));
            let slave = Registers::from(&pair.chip(Which::Slave));
            return Some(Shown::TwoChips(master, slave));
        }
    }
    None
}

fn play_chip(chip: &mut Chip, word: ChipWord) -> Option<Shown> {
    match word {
        ChipWord::PowerOn => *chip = Chip::power_on(),
        ChipWord::Inputs(levels) => chip.drive_all(levels),
        ChipWord::Write(at, byte) => chip.write(at, byte),
        ChipWord::Read(at) => return Some(Shown::Byte(chip.read(at))),
        ChipWord::Acknowledge => return Some(Shown::Byte(chip.acknowledge())),
        ChipWord::Requests => return Some(Shown::Flag(chip.requests())),
        ChipWord::Show => return Some(Shown::OneChip(Registers::from(&*chip))),
    }
    None
}

impl fmt::Display for Registers {
    fn fmt<W: fmt::Write>(&self, f: &mut fmt::Formatter<W>) -> fmt::Result {
        let Registers { irr, isr, imr } = *self;
        write!(f, "irr {irr:02x} isr {isr:02x} imr {imr:02x}")
    }
}

impl fmt::Display for Shown {
    fn fmt<W: fmt::Write>(&self, f: &mut fmt::Formatter<W>) -> fmt::Result {
        match self {
            Shown::Byte(byte) => write!(f, "{byte:02x}"),
            Shown::Flag(true) => write!(f, "yes"),
            Shown::Flag(false) => write!(f, "no"),
            Shown::Input(Some(i)) => write!(f, "{i}"),
            Shown::Input(None) => write!(f, "none"),
            Shown::OneChip(chip) => write!(f, "{chip}"),
            Shown::TwoChips(master, slave) => write!(f, "{master} / {slave}"),
        }
    }
}
