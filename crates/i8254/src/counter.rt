// The counting element of a channel, with its count register and its OUT pin.
ghost use Rattle.std.specs.Prelude.{◌≡◌, false, not, Some, None};
ghost use Rattle.rules.specs.Device.{ticks};
ghost use Rattle.rules.specs.I8254.{complete, first_byte, is_mode_0};
ghost use Rattle.i8254_laws.specs.Foresight.{Foresees};
ghost use Rattle.i8254_laws.specs.Machines.{counting};
ghost use Rattle.i8254.specs.Control.{view_mode};
ghost use Rattle.i8254.specs.Channels.{view_counter};

use crate::control::{Mode, Periodic, Untriggered};
use crate::mode_0::TerminalCount;
use crate::mode_2::Rate;
use crate::mode_3::Square;
use crate::unloaded::Unloaded;

// A counter changes its mode, and the modes are closed: an enum, whose methods call those of its mode.
#[derive(Clone, Copy, Debug, PartialEq, Eq)]
pub enum Counter {
    // Mode 0.
    TerminalCount(TerminalCount),
    // Modes 1, 4 and 5, which never load a count.
    Still(Unloaded<Untriggered>),
    // Modes 2 and 3 before the first load.
    Starting(Unloaded<Periodic>),
    // Mode 2.
    Rate(Rate),
    // Mode 3.
    Square(Square),
}

impl Counter {
    // After a control word for this mode: OUT is low in mode 0 and high in the others, and the counter waits for a count.
    pub fn new(mode: Mode, value: u16) -> Counter
        ensures { view_counter result ≡ record { mode = view_mode mode; out = not (is_mode_0 (view_mode mode)); value = value; count = None; loaded = false; left = 0 } }
    {
        match mode {
            Mode::TerminalCount => Counter::TerminalCount(TerminalCount::new(value)),
            Mode::Untriggered(mode) => Counter::Still(Unloaded::new(mode, value)),
            Mode::Periodic(mode) => Counter::Starting(Unloaded::new(mode, value)),
        }
    }

    pub fn value(self) -> u16
        ensures { result ≡ (view_counter self).value }
    {
        match self {
            Counter::TerminalCount(counter) => counter.value,
            Counter::Still(counter) => counter.value,
            Counter::Starting(counter) => counter.value,
            Counter::Rate(counter) => counter.value,
            Counter::Square(counter) => counter.value,
        }
    }

    // The level of OUT.
    pub fn out(self) -> bool
        ensures { result ≡ (view_counter self).out }
    {
        match self {
            Counter::TerminalCount(counter) => counter.out,
            Counter::Still(_) | Counter::Starting(_) => true,
            Counter::Rate(counter) => counter.out(),
            Counter::Square(counter) => counter.high,
        }
    }

    // The first or only byte of a count puts OUT low in mode 0.
    pub fn first_byte(self) -> Counter
        ensures { view_counter result ≡ first_byte (view_counter self) }
    {
        match self {
            Counter::TerminalCount(counter) => Counter::TerminalCount(counter.first_byte()),
            _ => self,
        }
    }

    // The count as written is the newest complete one; it loads when the mode says so.
    pub fn complete(self, written: u16) -> Counter
        ensures { view_counter result ≡ complete written (view_counter self) }
    {
        match self {
            Counter::TerminalCount(counter) => Counter::TerminalCount(counter.complete(written)),
            Counter::Still(counter) => Counter::Still(counter.complete(written)),
            Counter::Starting(counter) => Counter::Starting(counter.complete(written)),
            Counter::Rate(counter) => Counter::Rate(counter.complete(written)),
            Counter::Square(counter) => Counter::Square(counter.complete(written)),
        }
    }

    pub fn is_mode_0(self) -> bool
        ensures { result ≡ is_mode_0 (view_counter self).mode }
    {
        matches!(self, Counter::TerminalCount(_))
    }

    // n ticks pass. Each mode's counter changes in its place, so that a tick does not move the whole enum.
    pub fn pass(&mut self, n: u64)
        ensures { view_counter self.new ≡ ticks counting n (view_counter self.old) }
    {
        match self {
            Counter::TerminalCount(counter) => *counter = counter.after(n),
            Counter::Still(_) => {}
            Counter::Starting(counter) => *self = counter.after(n),
            Counter::Rate(counter) => *counter = counter.after(n),
            Counter::Square(counter) => *counter = counter.after(n),
        }
    }

    // The first tick after which OUT differs.
    pub fn announce(self) -> Option<u64>
        ensures { Foresees counting (view_counter self) result }
    {
        match self {
            Counter::TerminalCount(counter) => counter.announce(),
            Counter::Still(_) => None,
            Counter::Starting(counter) => counter.announce(),
            Counter::Rate(counter) => Some(counter.announce()),
            Counter::Square(counter) => Some(counter.announce()),
        }
    }

    // OUT changes after n ticks, which pass. Answers when it changes again.
    #[inline(always)]
    pub fn turn(&mut self, n: u64) -> Option<u64>
        requires due { Foresees counting (view_counter self.old) (Some n) }
        ensures turned { view_counter self.new ≡ ticks counting n (view_counter self.old) }
        ensures next { Foresees counting (view_counter self.new) result }
    {
        match self {
            Counter::Rate(counter) => {
                *counter = counter.turned();
                Some(counter.announce())
            }
            Counter::Square(counter) => {
                *counter = counter.turned();
                Some(counter.announce())
            }
            _ => {
                self.pass(n);
                self.announce()
            }
        }
    }
}
