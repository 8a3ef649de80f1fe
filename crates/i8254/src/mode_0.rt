// Mode 0, interrupt on terminal count.
ghost use Rattle.std.specs.Prelude.{◌≡◌, true, false, None};
ghost use Rattle.rules.specs.Device.{ticks};
ghost use Rattle.rules.specs.I8254.{complete, first_byte};
ghost use Rattle.i8254_laws.specs.Counters.{mode_0_counter};
ghost use Rattle.i8254_laws.specs.Foresight.{Foresees};
ghost use Rattle.i8254_laws.specs.Machines.{counting};
ghost use Rattle.i8254.specs.Channels.{view_terminal_count};

use crate::count::{less, ticks_to_zero};

// A complete count waits for the tick that loads it; then the counter goes down for ever, and OUT goes high when it comes to 0.
#[derive(Clone, Copy, Debug, PartialEq, Eq)]
pub struct TerminalCount {
    pub value: u16,
    pub out: bool,
    // A count has been loaded since the control word; a further one may be waiting then, so this is no part of `waiting`.
    pub loaded: bool,
    // The count that is still to be loaded, as written.
    pub waiting: Option<u16>,
}

impl TerminalCount {
    // After the control word.
    pub fn new(value: u16) -> Self
        ensures { view_terminal_count result ≡ mode_0_counter false false None value }
    {
        TerminalCount {
            value,
            out: false,
            loaded: false,
            waiting: None,
        }
    }

    // The first or only byte of a count puts OUT low.
    pub fn first_byte(self) -> Self
        ensures { view_terminal_count result ≡ first_byte (view_terminal_count self) }
    {
        Self { out: false, ..self }
    }

    // The count as written is the newest complete one.
    pub fn complete(self, written: u16) -> Self
        ensures { view_terminal_count result ≡ complete written (view_terminal_count self) }
    {
        Self {
            waiting: Some(written),
            ..self
        }
    }

    // A counter that counts, n ticks after it holds this value.
    fn count_down(self, value: u16, n: u64) -> Self
        ensures { view_terminal_count result ≡ ticks counting n (mode_0_counter self.out true None value) }
    {
        let risen = ticks_to_zero(value) <= n;
        TerminalCount {
            value: less(n, value),
            out: self.out || risen,
            loaded: true,
            waiting: None,
        }
    }

    // n ticks later: a waiting count loads first.
    pub fn after(self, n: u64) -> Self
        ensures { view_terminal_count result ≡ ticks counting n (view_terminal_count self) }
    {
        match self.waiting {
            Some(count) => match n.checked_sub(1) {
                Some(rest) => self.count_down(count, rest),
                None => self,
            },
            None if self.loaded => self.count_down(self.value, n),
            None => self,
        }
    }

    // When OUT rises. Once it is high, no tick puts it low.
    pub fn announce(self) -> Option<u64>
        ensures { Foresees counting (view_terminal_count self) result }
    {
        if self.out {
            return None;
        }
        match self.waiting {
            Some(count) => Some(ticks_to_zero(count) + 1),
            None if self.loaded => Some(ticks_to_zero(self.value)),
            None => None,
        }
    }
}
