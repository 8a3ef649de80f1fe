// The words of a script. A number follows a word after `=`, in hexadecimal.
use i8259::{Offset, Which};
use std::fmt;
use std::num::ParseIntError;
use std::str::FromStr;

// The error of a text that is no word.
#[derive(Clone, Copy, Debug, PartialEq, Eq)]
pub struct NoWord;

#[derive(Clone, Copy)]
pub enum Word {
    OnPair(PairWord),
    OnChip(ChipWord),
    // the search alone, by the lowest input and the register
    First(u8, u8),
}

#[derive(Clone, Copy)]
pub enum PairWord {
    PowerOn,
    WithInputs(u16),
    Lines(u16),
    Write(Which, Offset, u8),
    Read(Which, Offset),
    Acknowledge,
    Requests,
    Show,
}

#[derive(Clone, Copy)]
pub enum ChipWord {
    PowerOn,
    Inputs(u8),
    Write(Offset, u8),
    Read(Offset),
    Acknowledge,
    Requests,
    Show,
}

impl FromStr for Word {
    type Err = NoWord;

    fn from_str(text: &str) -> Result<Word, NoWord> {
        let (name, digits) = text.split_once('=').unwrap_or((text, "0"));
        let number = u16::from_str_radix(digits, 16)?;
        if name == "first" {
            let [lowest, register] = number.to_be_bytes();
            return Ok(Word::First(lowest, register));
        }
        let on_pair = PairWord::try_from((name, number)).map(Word::OnPair);
        on_pair.or_else(|_| ChipWord::try_from((name, number)).map(Word::OnChip))
    }
}

impl TryFrom<(&str, u16)> for PairWord {
    type Error = NoWord;

    fn try_from((name, number): (&str, u16)) -> Result<PairWord, NoWord> {
        let [_, byte] = number.to_be_bytes();
        let word = match name {
            "power" => PairWord::PowerOn,
            "stand" => PairWord::WithInputs(number),
            "lines" => PairWord::Lines(number),
            "w20" => PairWord::Write(Which::Master, Offset::Zero, byte),
            "w21" => PairWord::Write(Which::Master, Offset::One, byte),
            "wa0" => PairWord::Write(Which::Slave, Offset::Zero, byte),
            "wa1" => PairWord::Write(Which::Slave, Offset::One, byte),
            "r20" => PairWord::Read(Which::Master, Offset::Zero),
            "r21" => PairWord::Read(Which::Master, Offset::One),
            "ra0" => PairWord::Read(Which::Slave, Offset::Zero),
            "ra1" => PairWord::Read(Which::Slave, Offset::One),
            "ack" => PairWord::Acknowledge,
            "asks" => PairWord::Requests,
            "show" => PairWord::Show,
            _ => return Err(NoWord),
        };
        Ok(word)
    }
}

impl TryFrom<(&str, u16)> for ChipWord {
    type Error = NoWord;

    fn try_from((name, number): (&str, u16)) -> Result<ChipWord, NoWord> {
        let [_, byte] = number.to_be_bytes();
        let word = match name {
            "chip" => ChipWord::PowerOn,
            "in" => ChipWord::Inputs(byte),
            "w0" => ChipWord::Write(Offset::Zero, byte),
            "w1" => ChipWord::Write(Offset::One, byte),
            "r0" => ChipWord::Read(Offset::Zero),
            "r1" => ChipWord::Read(Offset::One),
            "chip-ack" => ChipWord::Acknowledge,
            "chip-asks" => ChipWord::Requests,
            "chip-show" => ChipWord::Show,
            _ => return Err(NoWord),
        };
        Ok(word)
    }
}

impl From<ParseIntError> for NoWord {
    fn from(_: ParseIntError) -> NoWord {
        NoWord
    }
}

impl fmt::Display for NoWord {
    fn fmt<W: fmt::Write>(&self, f: &mut fmt::Formatter<W>) -> fmt::Result {
        write!(f, "is no word")
    }
}
