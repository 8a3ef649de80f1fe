// One 8259A: what it holds. Its methods are in the modules below.
mod registers;
mod service;
mod words;

use crate::bit::Input;
use std::marker::Model;

// The input that comes last at power on and after ICW1, and whose vector answers where nothing is requested.
const LAST_INPUT: Input = Input { number: 7 };

// Which initialisation word the chip waits for. At power on it is `Idle`, initialised it is `Ready`.
#[derive(Clone, Copy, Debug, PartialEq, Eq)]
pub enum Stage {
    Idle,
    // ICW1 said whether ICW3 is left out, and whether ICW4 comes.
    WaitIcw2 { single: bool, needs_icw4: bool },
    WaitIcw3 { needs_icw4: bool },
    WaitIcw4,
    Ready,
}

// The two ports of a chip.
#[derive(Clone, Copy, Debug, PartialEq, Eq)]
pub enum Offset {
    Zero,
    One,
}

// What a write is, by its port and its byte. At offset 1 the stage says which word it is.
#[derive(Clone, Copy)]
enum Access {
    Icw1,
    Ocw2,
    Ocw3,
    OffsetOne,
}

// Which register a read at offset 0 gives.
#[derive(Clone, Copy, Debug, PartialEq, Eq)]
enum Selection {
    Irr,
    Isr,
}

// Registers are bytes; bit i belongs to input i.
#[derive(Clone, Copy, Debug, PartialEq, Eq)]
pub struct Chip {
    // the levels of the eight inputs
    inputs: u8,
    irr: u8,
    isr: u8,
    imr: u8,
    // the vector of input 0
    base: u8,
    // the input of lowest priority
    lowest: Input,
    selection: Selection,
    stage: Stage,
}

// In contracts a chip is the rules' chip.
impl Model for Chip {
    ghost use Rattle.std.specs.Prelude.{◌≡◌, ◌%◌};
    ghost use Rattle.rules.specs.I8259 as rules;

    ghost Value = { rules.Chip };

    ghost use Rattle.i8259.specs.ChipView as chip;

    ghost view = { chip.view };

    // so that base + 7 is a byte
    ghost invariant = { λ c. c.base % 8 ≡ 0 };

    ghost inverse = { chip.fields };

    ghost inverse_ok = { λ c _. chip.fields_back c };
}
