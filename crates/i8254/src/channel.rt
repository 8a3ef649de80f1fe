// A channel: a counting element behind the bytes that a program writes and reads.
ghost use Rattle.std.specs.Prelude.{◌≡◌, Some};
ghost use Rattle.rules.specs.Device.{ticks};
ghost use Rattle.rules.specs.I8254.{after_read_count, byte_of_count, latch_count, power_on_channel, program, shown, write_count};
ghost use Rattle.i8254_laws.specs.Foresight.{Foresees};
ghost use Rattle.i8254_laws.specs.Machines.{channel};
ghost use Rattle.i8254_laws.specs.Runs.{held};
ghost use Rattle.i8254.specs.Control.{view_access, view_mode, effect};
ghost use Rattle.i8254.specs.Channels.{view_channel};

use crate::control::{Access, Command, Mode};
use crate::counter::Counter;

// A `view_channel` and no Model, for the reason given at `Timer`.
#[derive(Clone, Copy, Debug, PartialEq, Eq)]
pub struct Channel {
    access: Access,
    // The low byte of a count whose high byte is still to be written.
    low_byte: Option<u8>,
    // The next read gives the high byte.
    high_next: bool,
    // The count that a latch command holds for reading.
    latch: Option<u16>,
    counter: Counter,
}

impl Channel {
    pub fn power_on() -> Channel
        ensures { view_channel result ≡ power_on_channel }
    {
        Channel {
            access: Access::LowThenHigh,
            low_byte: None,
            high_next: false,
            latch: None,
            counter: Counter::new(Mode::TerminalCount, 0),
        }
    }

    // What a read looks at: the latched count, else the live counter.
    fn shown(&self) -> u16
        ensures { result ≡ shown (view_channel self.now) }
    {
        self.latch.unwrap_or(self.counter.value())
    }

    // A byte written to the count.
    pub fn write_count(&mut self, byte: u8)
        ensures { view_channel self.new ≡ write_count byte (view_channel self.old) }
    {
        self.counter = match (self.access, self.low_byte) {
            (Access::LowOnly, _) => self.counter.first_byte().complete(u16::from(byte)),
            (Access::HighOnly, _) => self
                .counter
                .first_byte()
                .complete(u16::from_le_bytes([0, byte])),
            (Access::LowThenHigh, None) => {
                self.low_byte = Some(byte);
                self.counter.first_byte()
            }
            (Access::LowThenHigh, Some(low)) => {
                self.low_byte = None;
                self.counter.complete(u16::from_le_bytes([low, byte]))
            }
        };
    }

    // Reads a byte of the count. Two bytes come in turn, and a latched count drops with its last one.
    pub fn read_count(&mut self) -> u8
        ensures gives { result ≡ byte_of_count (view_channel self.old) }
        ensures leaves { view_channel self.new ≡ after_read_count (view_channel self.old) }
    {
        let [low, high] = self.shown().to_le_bytes();
        match self.access {
            Access::LowOnly => {
                self.latch = None;
                low
            }
            Access::HighOnly => {
                self.latch = None;
                high
            }
            Access::LowThenHigh if self.high_next => {
                self.high_next = false;
                self.latch = None;
                high
            }
            Access::LowThenHigh => {
                self.high_next = true;
                low
            }
        }
    }

    // A control word that names this channel: it latches the counter, or programs the channel.
    pub fn control(&mut self, command: Command)
        ensures { view_channel self.new ≡ effect command (view_channel self.old) }
    {
        match command {
            Command::Latch => self.latch(),
            Command::Program { access, mode } => self.program(access, mode),
        }
    }

    // Holds the counter for reading, unless a count is held already.
    fn latch(&mut self)
        ensures { view_channel self.new ≡ latch_count (view_channel self.old) }
    {
        self.latch = Some(self.shown());
    }

    // Both byte toggles go to low; the latch and the counts are dropped. The counter keeps its value.
    fn program(&mut self, access: Access, mode: Mode)
        ensures { view_channel self.new ≡ program (view_access access) (view_mode mode) (view_channel self.old) }
    {
        *self = Channel {
            access,
            low_byte: None,
            high_next: false,
            latch: None,
            counter: Counter::new(mode, self.counter.value()),
        };
    }

    // In mode 0, between the two bytes of a count, nothing loads or counts.
    fn is_held(&self) -> bool
        ensures { result ≡ held (view_channel self.now) }
    {
        self.low_byte.is_some() && self.counter.is_mode_0()
    }

    // n ticks pass.
    pub fn skip(&mut self, n: u64)
        ensures { view_channel self.new ≡ ticks channel n (view_channel self.old) }
    {
        if !self.is_held() {
            self.counter.pass(n);
        }
    }

    // The first tick after which OUT differs.
    pub fn announce(&self) -> Option<u64>
        ensures { Foresees channel (view_channel self.now) result }
    {
        if self.is_held() {
            None
        } else {
            self.counter.announce()
        }
    }

    // OUT changes after n ticks, which pass. Answers when it changes again. A channel that is held announces no change.
    #[inline(always)]
    pub fn turn(&mut self, n: u64) -> Option<u64>
        requires due { Foresees channel (view_channel self.old) (Some n) }
        ensures turned { view_channel self.new ≡ ticks channel n (view_channel self.old) }
        ensures next { Foresees channel (view_channel self.new) result }
    {
        self.counter.turn(n)
    }

    // The level of OUT.
    pub fn out(&self) -> bool
        ensures { result ≡ (view_channel self.now).counter.out }
    {
        self.counter.out()
    }
}
