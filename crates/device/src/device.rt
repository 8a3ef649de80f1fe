// What the board asks of a device.
ghost use Rattle.std.specs.Prelude.{◌≡◌, ℕ, min};
ghost use Rattle.rules.specs.Device.{Meaning, Announces, ticks, horizon};
ghost use Rattle.rules.specs.Device.{Lawful};

// The farthest that a device looks ahead, or skips at once: 2^32 ticks.
pub const HORIZON: u64 = 1 << 32;

// What a port reads as where nothing answers.
pub const NO_BYTE: u8 = 0xFF;

// A kind of device. Its meaning is a state machine that is stepped one tick at a time; the functions jump.
pub trait Device {
    // How many ports every device of this kind has, 1 to 8. `ports` says it as a call.
    const WIDTH: u16;

    ghost WIDTH: { ℕ };

    ghost State: { Type 0 };

    ghost meaning: { Meaning State };

    ghost state: { Self → State };

    // How many ports there are, tied to the meaning by a contract: `WIDTH`, whatever the device.
    fn ports() -> u16
        ensures { result ≡ meaning.width }
    {
        Self::WIDTH
    }

    // n ticks pass at once; an n above 2^32 counts as 2^32.
    fn skip(&mut self, n: u64)
        ensures { state self.new ≡ ticks meaning (min n horizon) (state self.old) };

    // The first tick, from 1 to 2^32, after which the level differs from the present one.
    fn announce(&self) -> Option<u64>
        ensures { Announces meaning (state self.now) result };

    // The level of the request line.
    fn level(&self) -> bool
        ensures { result ≡ meaning.level (state self.now) };

    // An offset is any number: past the ports a read gives FFh and a write does nothing, so no enum of ports would serve.
    fn read(&mut self, offset: u16) -> u8
        ensures gives { result ≡ meaning.byte_read (state self.old) offset }
        ensures leaves { state self.new ≡ meaning.after_read (state self.old) offset };

    fn write(&mut self, offset: u16, byte: u8)
        ensures { state self.new ≡ meaning.after_write (state self.old) offset byte };

    ghost width_meant: { WIDTH ≡ meaning.width };

    // One to eight ports, and nothing happens past them.
    ghost lawful: { Lawful meaning };
}
