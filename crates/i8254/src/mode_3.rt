// Mode 3, square wave, from the first load on.
ghost use Rattle.std.specs.Prelude.{◌≡◌, ◌<◌, Some};
ghost use Rattle.rules.specs.Device.{Announces, ticks};
ghost use Rattle.rules.specs.I8254.{complete, half_length};
ghost use Rattle.i8254_laws.specs.Machines.{counting, Turns};
ghost use Rattle.i8254_laws.specs.Mode3.{begun, part_of_half};
ghost use Rattle.i8254.specs.Channels.{view_square};

use crate::count::{Period, less, past_whole};
use device::bits_of;

// After the present half, high or low, has had its ticks, the other one begins.
#[derive(Clone, Copy, Debug, PartialEq, Eq)]
pub struct Square {
    pub value: u16,
    // Of the newest complete count, which the next half takes.
    pub period: Period,
    pub high: bool,
    // The ticks of the present half that are still to come, but for its last one.
    pub left: u16,
}

impl Square {
    // A half of the period, n ticks after it began.
    fn part_of_half(period: Period, high: bool, n: u64) -> Self
        requires { n < half_length high period.ticks }
        ensures { view_square result ≡ part_of_half period.ticks high n }
    {
        let even = bits_of(period.ticks() - period.ticks() % 2);
        Square {
            value: less(2 * n, even),
            period,
            high,
            left: (period.half_length(high) - 1 - n) as u16,
        }
    }

    // n ticks after a half began.
    pub fn begun(period: Period, high: bool, n: u64) -> Self
        ensures { view_square result ≡ ticks counting n (begun period.ticks high) }
    {
        let first = period.half_length(high);
        let rest = past_whole(period.ticks(), n);
        if rest < first {
            Self::part_of_half(period, high, rest)
        } else {
            Self::part_of_half(period, !high, rest - first)
        }
    }

    // The count as written is the newest complete one, as in `Rate`.
    pub fn complete(self, written: u16) -> Self
        ensures { view_square result ≡ complete written (view_square self) }
    {
        Self {
            period: Period::from(written),
            ..self
        }
    }

    // n ticks later. The present half may belong to an older count than the later ones.
    pub fn after(self, n: u64) -> Self
        ensures { view_square result ≡ ticks counting n (view_square self) }
    {
        let left = u64::from(self.left);
        if left < n {
            return Self::begun(self.period, !self.high, n - left - 1);
        }
        Self {
            value: less(2 * n, self.value),
            left: (left - n) as u16,
            ..self
        }
    }

    // When OUT changes: after the last tick of the half.
    pub fn announce(self) -> u64
        ensures { Announces counting (view_square self) (Some result) }
    {
        u64::from(self.left) + 1
    }

    // When OUT changes, the other half begins.
    pub fn turned(self) -> Self
        ensures { Turns counting (view_square self) (view_square result) }
    {
        Self::part_of_half(self.period, !self.high, 0)
    }
}
