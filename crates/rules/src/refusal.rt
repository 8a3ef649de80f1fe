// The closed list of refusals.
ghost use Rattle.std.specs.Prelude.{◌≡◌};
ghost use Rattle.rules.specs.Refusals.{told};

// Why a trace or a call is refused, with the number that is printed. What each means stands in docs/RULES.md.
// A refusal is shown by its number and layer alone, so it has no `Display`.
#[derive(Clone, Copy, PartialEq, Eq, Debug)]
pub enum Refusal {
    // The trace is empty, too long, or of another version.
    NotATrace = 1,
    // A record's length field or its counted bytes are cut off.
    CutOff = 2,
    // The length is 0, or there is no such kind.
    UnknownKind = 3,
    // The length is not the kind's.
    WrongLength = 4,
    // A note has a byte that is no printable ASCII.
    NotPrintable = 5,
    // An advance is above 2^32.
    LongAdvance = 6,
    // An advance would pass time 2^48.
    PastEnd = 7,
    // A queued tick is not after the present time, or is past 2^48.
    BadTick = 8,
    // No node is free for a queued write.
    QueueFull = 9,
    // Fewer than 100 bytes of output remain before a record.
    OutputFull = 10,
}

// Where a refusal comes from.
#[derive(Clone, Copy, PartialEq, Eq, Debug)]
pub enum Layer {
    Trace,
    Board,
    Queue,
}

impl Refusal {
    // The number that is printed.
    pub fn number(self) -> u8
        ensures { result ≡ (told self).number }
    {
        self as u8
    }

    pub fn layer(self) -> Layer
        ensures { result ≡ (told self).layer }
    {
        match self {
            Refusal::LongAdvance | Refusal::PastEnd | Refusal::BadTick => Layer::Board,
            Refusal::QueueFull => Layer::Queue,
            _ => Layer::Trace,
        }
    }
}

impl Layer {
    // The letter that is printed. A match and no discriminants: a byte's letter reads plainer than a number cast to one.
    pub fn letter(self) -> u8
        ensures { result ≡ Rattle.rules.specs.Refusals.letter self }
    {
        match self {
            Layer::Trace => b'T',
            Layer::Board => b'B',
            Layer::Queue => b'Q',
        }
    }
}
