// What a control word says to the channel that it names.
ghost use Rattle.std.specs.Prelude.{◌≡◌, ◌/◌, ◌%◌};
ghost use Rattle.rules.specs.I8254 as rules;
ghost use Rattle.rules.specs.I8254.{control, mode_meant};
ghost use Rattle.i8254.specs.Control.{view_mode, effect};

// Which bytes of a count are written and read.
#[derive(Clone, Copy, Debug, PartialEq, Eq)]
pub enum Access {
    LowOnly,
    HighOnly,
    LowThenHigh,
}

// Modes whose trigger never comes.
#[derive(Clone, Copy, Debug, PartialEq, Eq)]
pub enum Untriggered {
    OneShot,
    SoftwareStrobe,
    HardwareStrobe,
}

// Modes that load their count again and again.
#[derive(Clone, Copy, Debug, PartialEq, Eq)]
pub enum Periodic {
    RateGenerator,
    SquareWave,
}

#[derive(Clone, Copy)]
pub enum Mode {
    // Mode 0.
    TerminalCount,
    // Modes 1, 4 and 5.
    Untriggered(Untriggered),
    // Modes 2 and 3.
    Periodic(Periodic),
}

#[derive(Clone, Copy)]
pub enum Command {
    // Hold the counter for reading.
    Latch,
    Program { access: Access, mode: Mode },
}

// Bits 3 to 1 of a control word. Codes 6 and 7 are further ones of modes 2 and 3; each code has an arm of its own, since the
// proof of the last arm knows of no `2 | 6` that 6 is ruled out.
impl From<u8> for Mode {
    ghost from_gives = { λ word mode. view_mode mode ≡ mode_meant (word / 2 % 8) };

    fn from(word: u8) -> Mode {
        match (word >> 1) & 0b111 {
            0 => Mode::TerminalCount,
            1 => Mode::Untriggered(Untriggered::OneShot),
            2 => Mode::Periodic(Periodic::RateGenerator),
            3 => Mode::Periodic(Periodic::SquareWave),
            4 => Mode::Untriggered(Untriggered::SoftwareStrobe),
            5 => Mode::Untriggered(Untriggered::HardwareStrobe),
            6 => Mode::Periodic(Periodic::RateGenerator),
            _ => Mode::Periodic(Periodic::SquareWave),
        }
    }
}

// Bits 5 and 4 of a control word latch, or say which bytes of a count come.
impl From<u8> for Command {
    ghost from_gives = { λ word command. (channel : rules.Channel) → effect command channel ≡ control word channel };

    fn from(word: u8) -> Command {
        let access = match (word >> 4) & 0b11 {
            0 => return Command::Latch,
            1 => Access::LowOnly,
            2 => Access::HighOnly,
            // Code 3 alone is left.
            _ => Access::LowThenHigh,
        };
        Command::Program {
            access,
            mode: Mode::from(word),
        }
    }
}
