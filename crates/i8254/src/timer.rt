// The timer: three channels that lag behind its ticks.
ghost use Rattle.std.specs.Prelude.{◌≡◌, ◌≢◌, ◌<◌, refl};
ghost use Rattle.rules.specs.Device.{ticks};
ghost use Rattle.rules.specs.I8254 as rules;
ghost use Rattle.rules.specs.I8254.{power_on_timer, timer};
ghost use Rattle.i8254.specs.Channels.{view_channels};
ghost use Rattle.i8254.specs.Forecasts.{Foretold};
ghost use Rattle.i8254.specs.declared.forecast.TheConstants.{NEVER};
ghost use Rattle.i8254.specs.Ports.{timer_lawful};

use crate::channels::Channels;
use crate::forecast::{Forecast, NEVER};
use device::{Device, HORIZON};

// Contracts see it by `view`: a Model of a type that is Copy needs a way back from the rules' state, and a count that waits in
// mode 2 means the same written as 1 or as 2. Nor is there a `PartialEq`, as timers that lag differently can mean the same.
#[derive(Clone, Copy, Debug)]
pub struct Timer {
    // As they were `lag` ticks ago.
    channels: Channels,
    // What was foreseen of OUT then.
    forecast: Forecast,
    // The ticks that the channels have not had yet: they catch up only where OUT changes or a port is reached.
    lag: u64,
    ghost foretold: { Foretold forecast (view_channels channels) },
    ghost behind: { lag < forecast.due },
}

impl Timer {
    ghost use Rattle.i8254.specs.Views.{view};

    // Every channel takes two bytes, is in mode 0 with OUT low, and stands still at 0.
    pub fn power_on() -> Timer
        ensures { view result ≡ power_on_timer }
    {
        let channels = Channels::power_on();
        Timer {
            channels,
            forecast: channels.forecast(),
            lag: 0,
        }
    }

    // The ticks pass after which OUT changes.
    #[inline(always)]
    fn turn(&mut self)
        requires change { self.old.forecast.due ≢ NEVER }
        ensures { view self.new ≡ ticks timer self.old.forecast.due (view_channels self.old.channels) }
    {
        let next = self.channels.turn(self.forecast.due);
        self.forecast = Forecast {
            out: !self.forecast.out,
            due: next.unwrap_or(NEVER),
        };
        self.lag = 0;
    }

    // Goes on to n ticks after the forecast, at which OUT changes or past which it may.
    #[inline(always)]
    fn arrive(&mut self, n: u64)
        ensures { view self.new ≡ ticks timer n (view_channels self.old.channels) }
    {
        if n == self.forecast.due && n < NEVER {
            self.turn();
        } else {
            self.catch_up(n);
        }
    }

    // The channels have n ticks, those that they lack among them.
    #[inline(never)]
    fn catch_up(&mut self, n: u64)
        ensures { view self.new ≡ ticks timer n (view_channels self.old.channels) }
    {
        self.channels.skip(n);
        self.forecast = self.channels.forecast();
        self.lag = 0;
    }
}

impl Device for Timer {
    ghost use Rattle.i8254.specs.Views.{view};

    const WIDTH: u16 = 4;

    ghost WIDTH = { 4 };

    ghost State = { rules.Timer };

    ghost meaning = { timer };

    ghost state = { view };

    #[inline(always)]
    fn skip(&mut self, n: u64) {
        let lag = self.lag + n.min(HORIZON);
        if lag < self.forecast.due {
            self.lag = lag;
        } else {
            self.arrive(lag);
        }
    }

    fn announce(&self) -> Option<u64> {
        if self.forecast.due == NEVER {
            None
        } else {
            Some(self.forecast.due - self.lag)
        }
    }

    fn level(&self) -> bool {
        self.forecast.out
    }

    fn read(&mut self, offset: u16) -> u8 {
        self.channels.skip(self.lag);
        let byte = self.channels.read(offset);
        self.forecast = self.channels.forecast();
        self.lag = 0;
        byte
    }

    fn write(&mut self, offset: u16, byte: u8) {
        self.channels.skip(self.lag);
        self.channels.write(offset, byte);
        self.forecast = self.channels.forecast();
        self.lag = 0;
    }

    ghost width_meant = { refl };

    ghost lawful = { timer_lawful };
}
