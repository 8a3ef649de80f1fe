// Counters of modes 1 to 5 before their first load. OUT is high and the value stays.
ghost use Rattle.std.specs.Prelude.{◌≡◌, Some, None};
ghost use Rattle.rules.specs.Device.{ticks};
ghost use Rattle.i8254_laws.specs.Foresight.{Foresees};
ghost use Rattle.i8254_laws.specs.Machines.{counting};
ghost use Rattle.i8254.specs.Channels.{view_starting, view_counter};

use crate::control::Periodic;
use crate::count::Period;
use crate::counter::Counter;
use crate::mode_2::Rate;
use crate::mode_3::Square;

#[derive(Clone, Copy, Debug, PartialEq, Eq)]
pub struct Unloaded<M> {
    pub mode: M,
    pub value: u16,
    // The newest complete count, as written.
    pub count: Option<u16>,
}

impl<M> Unloaded<M> {
    // After the control word.
    pub fn new(mode: M, value: u16) -> Self
        ensures { result ≡ record { mode = mode; value = value; count = None } }
    {
        Unloaded {
            mode,
            value,
            count: None,
        }
    }

    // The count as written is the newest complete one.
    pub fn complete(self, written: u16) -> Self
        ensures { result ≡ record { mode = self.mode; value = self.value; count = Some written } }
    {
        Unloaded {
            count: Some(written),
            ..self
        }
    }
}

impl Unloaded<Periodic> {
    // n ticks later: the first one loads a complete count.
    pub fn after(self, n: u64) -> Counter
        ensures { view_counter result ≡ ticks counting n (view_starting self) }
    {
        let (Some(count), Some(rest)) = (self.count, n.checked_sub(1)) else {
            return Counter::Starting(self);
        };
        let period = Period::from(count);
        match self.mode {
            Periodic::RateGenerator => Counter::Rate(Rate::loaded(period).after(rest)),
            Periodic::SquareWave => Counter::Square(Square::begun(period, true, rest)),
        }
    }

    // When OUT first falls.
    pub fn announce(self) -> Option<u64>
        ensures { Foresees counting (view_starting self) result }
    {
        let period = Period::from(self.count?);
        Some(match self.mode {
            Periodic::RateGenerator => period.ticks(),
            Periodic::SquareWave => period.half_length(true) + 1,
        })
    }
}
