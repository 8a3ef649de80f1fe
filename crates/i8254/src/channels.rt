// The three channels at their four ports.
ghost use Rattle.std.specs.Prelude.{◌≡◌, ◌/◌, Some};
ghost use Rattle.rules.specs.Device.{ticks};
ghost use Rattle.rules.specs.I8254.{after_read_timer, at_channel, control, power_on_timer, read_timer, timer, write_timer};
ghost use Rattle.i8254_laws.specs.Foresight.{Foresees};
ghost use Rattle.i8254.specs.Channels.{others_after, view_channels};
ghost use Rattle.i8254.specs.Forecasts.{Foretold};

use crate::channel::Channel;
use crate::control::Command;
use crate::forecast::{Forecast, NEVER};
use device::NO_BYTE;

#[derive(Clone, Copy, Debug)]
pub struct Channels {
    channel_0: Channel,
    channel_1: Channel,
    channel_2: Channel,
    // The ticks that channels 1 and 2 lack beside channel 0: nothing is wired to their OUT, so they catch up only where a port
    // reaches one of them.
    lag: u64,
}

// The port after those of the three counts.
const CONTROL_PORT: u16 = 3;

impl Channels {
    // Every channel takes two bytes, is in mode 0 with OUT low, and stands still at 0.
    pub fn power_on() -> Channels
        ensures { view_channels result ≡ power_on_timer }
    {
        let channel = Channel::power_on();
        Channels {
            channel_0: channel,
            channel_1: channel,
            channel_2: channel,
            lag: 0,
        }
    }

    // Channels 1 and 2 have the ticks that they lag behind.
    #[inline(never)]
    fn catch_up(&mut self)
        ensures meaning { view_channels self.new ≡ view_channels self.old }
        ensures lag { self.new.lag ≡ 0 }
    {
        self.channel_1.skip(self.lag);
        self.channel_2.skip(self.lag);
        self.lag = 0;
    }

    // n ticks pass for channels 1 and 2. They catch up only if the lag has no room for more.
    fn fall_behind(&mut self, n: u64)
        ensures { view_channels self.new ≡ others_after n (view_channels self.old) }
    {
        match self.lag.checked_add(n) {
            Some(lag) => self.lag = lag,
            None => {
                self.catch_up();
                self.lag = n;
            }
        }
    }

    // n ticks pass.
    pub fn skip(&mut self, n: u64)
        ensures { view_channels self.new ≡ ticks timer n (view_channels self.old) }
    {
        self.channel_0.skip(n);
        self.fall_behind(n);
    }

    // Channel 0's OUT changes after n ticks, which pass. Answers when it changes again.
    #[inline(always)]
    pub fn turn(&mut self, n: u64) -> Option<u64>
        requires due { Foresees timer (view_channels self.old) (Some n) }
        ensures turned { view_channels self.new ≡ ticks timer n (view_channels self.old) }
        ensures next { Foresees timer (view_channels self.new) result }
    {
        let next = self.channel_0.turn(n);
        self.fall_behind(n);
        next
    }

    // What is foreseen of channel 0's OUT.
    pub fn forecast(&self) -> Forecast
        ensures { Foretold result (view_channels self.now) }
    {
        Forecast {
            out: self.channel_0.out(),
            due: self.channel_0.announce().unwrap_or(NEVER),
        }
    }

    // Reads a byte at a port.
    pub fn read(&mut self, offset: u16) -> u8
        ensures gives { result ≡ read_timer (view_channels self.old) offset }
        ensures leaves { view_channels self.new ≡ after_read_timer (view_channels self.old) offset }
    {
        match offset {
            0 => self.channel_0.read_count(),
            1 => {
                self.catch_up();
                self.channel_1.read_count()
            }
            2 => {
                self.catch_up();
                self.channel_2.read_count()
            }
            _ => NO_BYTE,
        }
    }

    // Writes a byte at a port.
    pub fn write(&mut self, offset: u16, byte: u8)
        ensures { view_channels self.new ≡ write_timer (view_channels self.old) offset byte }
    {
        match offset {
            0 => self.channel_0.write_count(byte),
            1 => {
                self.catch_up();
                self.channel_1.write_count(byte);
            }
            2 => {
                self.catch_up();
                self.channel_2.write_count(byte);
            }
            CONTROL_PORT => self.control(byte),
            _ => {}
        }
    }

    // A control word, whose bits 7 and 6 name its channel; there is no channel 3.
    fn control(&mut self, word: u8)
        ensures { view_channels self.new ≡ at_channel (word / 64) (control word) (view_channels self.old) }
    {
        let command = Command::from(word);
        match word >> 6 {
            0 => self.channel_0.control(command),
            1 => {
                self.catch_up();
                self.channel_1.control(command);
            }
            2 => {
                self.catch_up();
                self.channel_2.control(command);
            }
            _ => {}
        }
    }
}
