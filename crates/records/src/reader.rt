// Goes through a trace.
ghost use Rattle.std.specs.Prelude.{◌≡◌, ◌<◌, true, false, length, Ok, Err, Some, nat_le};
ghost use Rattle.rules.specs.declared.refusal.Refusal.TheVariants.{NotATrace};

use crate::decode::decode;
use crate::record::Record;
use rules::Refusal;

// The byte that a trace starts with.
const VERSION: u8 = 1;

// How many bytes a trace may have.
pub const LONGEST_TRACE: usize = 65_536;

// Borrows a trace, and goes through it record by record. The place stands beside the whole trace, since refusals name it.
#[derive(Drop)]
pub struct Reader<'a> {
    trace: &'a [u8],
    place: usize,
}

impl<'a> Reader<'a> {
    ghost use Rattle.records.specs.Reading.{whole, well_started, GivesNext};

    // Stands at the first record.
    pub fn new(trace: &'a [u8]) -> Result<Reader<'a>, Refusal>
        ensures { elim result [ Ok s ↦ (well_started trace.now ≡ true) × (whole s ≡ trace.now) × (s.place ≡ 1) | Err e ↦ (well_started trace.now ≡ false) × (e ≡ NotATrace) ] }
    {
        match trace {
            [VERSION, ..] if trace.len() <= LONGEST_TRACE => Ok(Reader { trace, place: 1 }),
            _ => Err(Refusal::NotATrace),
        }
    }

    // Where the next record's length field starts, counted from the start of the trace.
    pub fn place(&self) -> usize
        ensures { result ≡ self.now.place }
    {
        self.place
    }

    // Whether no byte is left.
    pub fn at_end(&self) -> bool
        ensures { result ≡ nat_le (length (whole self.now)) self.now.place }
    {
        self.trace.len() <= self.place
    }

    // The next record, or why there is none. Only a record moves the place. This is not `Iterator::next`: a fault is given
    // again and again, and a loop over an iterator must be known to end.
    pub fn next(&mut self) -> Option<Result<Record<'a>, Refusal>>
        ensures { GivesNext self.old result self.new }
    {
        if self.at_end() {
            return None;
        }
        Some(self.record())
    }

    // The record that starts at the place, or why there is none.
    fn record(&mut self) -> Result<Record<'a>, Refusal>
        requires { self.old.place < length (whole self.old) }
        ensures { GivesNext self.old (Some result) self.new }
    {
        let (len, bytes) = self.trace[self.place..]
            .split_first_chunk::<2>()
            .ok_or(Refusal::CutOff)?;
        let len = usize::from(u16::from_be_bytes(*len));
        let (counted, _) = bytes.split_at_checked(len).ok_or(Refusal::CutOff)?;
        let record = decode(counted)?;
        self.place += 2 + len;
        Ok(record)
    }
}
