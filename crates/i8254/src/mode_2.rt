// Mode 2, rate generator, from the first load on.
ghost use Rattle.std.specs.Prelude.{◌≡◌, ◌%◌, ◌==◌, not, Some};
ghost use Rattle.rules.specs.Device.{Announces, ticks};
ghost use Rattle.rules.specs.I8254.{complete};
ghost use Rattle.i8254_laws.specs.Counters.{mode_2_counter};
ghost use Rattle.i8254_laws.specs.Machines.{counting, Turns};
ghost use Rattle.i8254.specs.Channels.{view_rate};

use crate::count::{Period, past_whole, ticks_to_zero};
use device::bits_of;

// OUT is low while the counter is at 1.
#[derive(Clone, Copy, Debug, PartialEq, Eq)]
pub struct Rate {
    pub value: u16,
    // Of the newest complete count, which the next load takes.
    pub period: Period,
}

impl Rate {
    // After the load of a count.
    pub fn loaded(period: Period) -> Self
        ensures { view_rate result ≡ mode_2_counter period.ticks (period.ticks % 65536) }
    {
        Rate {
            value: bits_of(period.ticks()),
            period,
        }
    }

    // The level of OUT.
    pub fn out(self) -> bool
        ensures { result ≡ not (self.value == 1) }
    {
        self.value != 1
    }

    // The count as written is the newest complete one. `Square` has the same method, and no trait has both: `Counter` knows which
    // one it calls, so a trait would add its declaration, two impls and two laws and take nothing away.
    pub fn complete(self, written: u16) -> Self
        ensures { view_rate result ≡ complete written (view_rate self) }
    {
        Self {
            period: Period::from(written),
            ..self
        }
    }

    // n ticks later. The present period may belong to an older count than the later ones.
    pub fn after(self, n: u64) -> Self
        ensures { view_rate result ≡ ticks counting n (view_rate self) }
    {
        let to_load = ticks_to_zero(self.value);
        let period = self.period.ticks();
        let value = if n < to_load {
            bits_of(to_load - n)
        } else {
            bits_of(period - past_whole(period, n - to_load))
        };
        Self { value, ..self }
    }

    // When OUT changes: it falls when the counter comes to 1, and rises with the next load.
    pub fn announce(self) -> u64
        ensures { Announces counting (view_rate self) (Some result) }
    {
        if self.value == 1 {
            1
        } else {
            ticks_to_zero(self.value) - 1
        }
    }

    // When OUT changes: the counter comes to 1, or loads the count.
    pub fn turned(self) -> Self
        ensures { Turns counting (view_rate self) (view_rate result) }
    {
        if self.value == 1 {
            Self::loaded(self.period)
        } else {
            Self { value: 1, ..self }
        }
    }
}
