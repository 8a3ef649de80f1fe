// The commands of the console, and why a line is none.
ghost use Rattle.std.specs.Prelude.{◌≡◌, ◌≤◌, false, length, slice_index};
ghost use Rattle.std.specs.Char.{is_ascii_digit};
ghost use Rattle.commands.specs.Reasons.{reason_of};

use rules::QueuedWrite;

// What a line asks for.
#[derive(Clone, Copy, PartialEq, Eq, Debug)]
pub enum Command {
    // `outb PORT BYTE`
    Outb { port: u16, byte: u8 },
    // `inb PORT`
    Inb(u16),
    // `clock_step N`
    ClockStep(u64),
    // `iack`
    Iack,
    // `irq`
    Irq,
    // `queue TICK PORT BYTE`
    Queue(QueuedWrite),
    // `state`
    State,
    // `help`
    Help,
    // `quit`
    Quit,
}

// Why a line is no command: the first fault from its left.
#[derive(Clone, Copy, PartialEq, Eq, Debug)]
pub enum Unreadable {
    // The line has no word.
    EmptyLine,
    // The first word names no command.
    UnknownCommand,
    // A number is missing.
    MissingWord,
    // A word stands behind the last number.
    ExtraWord,
    // A word is neither decimal digits nor `0x` and hexadecimal digits.
    NotANumber,
    // A number doesn't fit its width.
    TooLarge,
}

impl Unreadable {
    // In at most 16 bytes. No text starts with a digit, by which it is told from a refusal's number.
    pub fn reason(self) -> &'static str
        ensures text { result.now ≡ reason_of self }
        ensures short { length result.now ≤ 16 }
        ensures no_digit { is_ascii_digit (slice_index result.now 0) ≡ false }
    {
        match self {
            Unreadable::EmptyLine => "empty line",
            Unreadable::UnknownCommand => "unknown command",
            Unreadable::MissingWord => "missing word",
            Unreadable::ExtraWord => "extra word",
            Unreadable::NotANumber => "not a number",
            Unreadable::TooLarge => "number too large",
        }
    }
}
