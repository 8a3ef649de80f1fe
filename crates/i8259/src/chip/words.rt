// What a chip does with the words of its two ports: the initialisation words ICW1 to ICW4, the mask, OCW2 and OCW3.
ghost use Rattle.std.specs.Prelude.{◌≡◌, Some, None};
ghost use Rattle.rules.specs.I8259 as rules;
ghost use Rattle.i8259.specs.ChipView.{stage_of};
ghost use Rattle.i8259.specs.Views.{offset, access_of, command_of};

use super::{Access, Chip, LAST_INPUT, Offset, Selection, Stage};
use crate::bit::{BITS, Bit, Input};
use crate::priority::first_after;

// Set in a byte at offset 0 that is ICW1.
const ICW1_BIT: Bit = Bit { number: 4 };

// Set in OCW3, and not in OCW2.
const OCW3_BIT: Bit = Bit { number: 3 };

// Set in ICW1 if ICW3 is left out.
const SINGLE_BIT: Bit = Bit { number: 1 };

// Set in ICW1 if ICW4 comes.
const ICW4_BIT: Bit = Bit { number: 0 };

// Set in OCW3 if it selects the register that offset 0 reads.
const SELECT_BIT: Bit = Bit { number: 1 };

// Set in OCW3 if that register is the ISR.
const ISR_BIT: Bit = Bit { number: 0 };

// OCW2 has its code from this bit on, and its level in the three lowest bits.
const CODE_SHIFT: u8 = 5;

// What OCW2 commands, with the level where the code has one.
#[derive(Clone, Copy)]
enum Command {
    // the codes 0, 2 and 4, which have no effect
    NoOperation,
    NonSpecificEnd,
    SpecificEnd(Input),
    RotateOnNonSpecificEnd,
    SetPriority(Input),
    RotateOnSpecificEnd(Input),
}

impl From<u8> for Command {
    ghost from_gives = { λ word command. command ≡ command_of word };

    fn from(word: u8) -> Command {
        let level = Input::wrapping(word);
        match word >> CODE_SHIFT {
            1 => Command::NonSpecificEnd,
            3 => Command::SpecificEnd(level),
            5 => Command::RotateOnNonSpecificEnd,
            6 => Command::SetPriority(level),
            7 => Command::RotateOnSpecificEnd(level),
            _ => Command::NoOperation,
        }
    }
}

impl From<(Offset, u8)> for Access {
    ghost from_gives = { λ written access. access ≡ access_of written.0 written.1 };

    fn from((at, byte): (Offset, u8)) -> Access {
        match at {
            Offset::Zero if ICW1_BIT.is_set(byte) => Access::Icw1,
            Offset::Zero if OCW3_BIT.is_set(byte) => Access::Ocw3,
            Offset::Zero => Access::Ocw2,
            Offset::One => Access::OffsetOne,
        }
    }
}

impl Stage {
    fn after_icw2(single: bool, needs_icw4: bool) -> Stage
        ensures { stage_of result ≡ rules.after_icw2 single needs_icw4 }
    {
        if single {
            Stage::after_icw3(needs_icw4)
        } else {
            Stage::WaitIcw3 { needs_icw4 }
        }
    }

    // The stage once ICW3 has come or is left out.
    fn after_icw3(needs_icw4: bool) -> Stage
        ensures { stage_of result ≡ rules.after_icw3 needs_icw4 }
    {
        if needs_icw4 {
            Stage::WaitIcw4
        } else {
            Stage::Ready
        }
    }
}

impl Chip {
    pub fn read(&self, at: Offset) -> u8
        ensures { result ≡ rules.read_chip (offset at) self.now }
    {
        match at {
            Offset::Zero => match self.selection {
                Selection::Irr => self.irr,
                Selection::Isr => self.isr,
            },
            Offset::One => self.imr,
        }
    }

    // ICW1 restarts the initialisation from any stage, and OCW2 and OCW3 act at any stage.
    pub fn write(&mut self, at: Offset, byte: u8)
        ensures { self.new ≡ rules.write_chip (offset at) byte self.old }
    {
        match (self.stage, Access::from((at, byte))) {
            (_, Access::Icw1) => self.icw1(byte),
            (_, Access::Ocw2) => self.ocw2(byte),
            (_, Access::Ocw3) => self.ocw3(byte),
            (Stage::WaitIcw2 { single, needs_icw4 }, Access::OffsetOne) => {
                self.base = byte - byte % BITS;
                self.stage = Stage::after_icw2(single, needs_icw4);
            }
            (Stage::WaitIcw3 { needs_icw4 }, Access::OffsetOne) => {
                self.stage = Stage::after_icw3(needs_icw4);
            }
            (Stage::WaitIcw4, Access::OffsetOne) => self.stage = Stage::Ready,
            (Stage::Idle | Stage::Ready, Access::OffsetOne) => self.imr = byte,
        }
    }

    fn icw1(&mut self, word: u8)
        ensures { self.new ≡ rules.icw1 word self.old }
    {
        let single = SINGLE_BIT.is_set(word);
        let needs_icw4 = ICW4_BIT.is_set(word);
        self.irr = 0;
        self.isr = 0;
        self.imr = 0;
        self.lowest = LAST_INPUT;
        self.selection = Selection::Irr;
        self.stage = Stage::WaitIcw2 { single, needs_icw4 };
    }

    fn ocw2(&mut self, word: u8)
        ensures { self.new ≡ rules.ocw2 word self.old }
    {
        match Command::from(word) {
            Command::NoOperation => {}
            Command::NonSpecificEnd => {
                let _ = self.end_first();
            }
            Command::SpecificEnd(level) => self.end_of(level),
            Command::RotateOnNonSpecificEnd => {
                if let Some(i) = self.end_first() {
                    self.make_lowest(i);
                }
            }
            Command::SetPriority(level) => self.make_lowest(level),
            Command::RotateOnSpecificEnd(level) => {
                self.end_of(level);
                self.make_lowest(level);
            }
        }
    }

    // Ends the input that comes first in service, if there is one, and says which that was.
    fn end_first(&mut self) -> Option<Input>
        ensures found { result ≡ rules.first self.old.lowest self.old.isr }
        ensures ended { self.new ≡ elim result [ Some i ↦ rules.end_of i self.old | None ↦ self.old ] }
    {
        let ended = first_after(self.lowest, self.isr)?;
        self.end_of(ended);
        Some(ended)
    }

    fn end_of(&mut self, i: Input)
        ensures { self.new ≡ rules.end_of i self.old }
    {
        self.isr = i.clear(self.isr);
    }

    fn make_lowest(&mut self, i: Input)
        ensures { self.new ≡ rules.make_lowest i self.old }
    {
        self.lowest = i;
    }

    fn ocw3(&mut self, word: u8)
        ensures { self.new ≡ rules.ocw3 word self.old }
    {
        if SELECT_BIT.is_set(word) {
            self.selection = if ISR_BIT.is_set(word) {
                Selection::Isr
            } else {
                Selection::Irr
            };
        }
    }
}
