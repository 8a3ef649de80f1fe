// Counts and what a counter holds.
ghost use Rattle.std.specs.Prelude.{◌≡◌, ◌%◌, ◌≤◌};
ghost use Rattle.rules.specs.I8254.{count_meant, half_length, mode_0, mode_2};
ghost use Rattle.i8254_laws.specs.Counters.{less};

use device::{bits_of, ticks_of};

// What a counter with this value holds when it has gone down by k.
pub fn less(k: u64, value: u16) -> u16
    ensures { result ≡ less k value }
{
    value.wrapping_sub(bits_of(k))
}

// What is left of n after whole periods. Time mostly jumps to the end of a period or half and not past the next, and then this does not divide.
pub fn past_whole(period: u64, n: u64) -> u64
    requires { 1 ≤ period }
    ensures { result ≡ n % period }
{
    if n < period { n } else { n % period }
}

// How many ticks a counter with this value takes to come to 0, which is also what a written count means in mode 0.
pub fn ticks_to_zero(value: u16) -> u64
    ensures meant { result ≡ count_meant mode_0 value }
    ensures within { (1 ≤ result) × (result ≤ 65536) }
    ensures same { result % 65536 ≡ value }
{
    ticks_of(value)
}

// What a count means in modes 2 and 3.
#[derive(Clone, Copy, Debug, PartialEq, Eq)]
pub struct Period {
    // In 32 bits, as a counter is handed on by value and stays small; `ticks` gives them as a number to count with.
    pub ticks: u32,
    ghost within: { (2 ≤ ticks) × (ticks ≤ 65536) },
}

// From a count as written.
impl From<u16> for Period {
    ghost from_gives = { λ written period. period.ticks ≡ count_meant mode_2 written };

    fn from(written: u16) -> Period {
        let ticks = match written {
            0 => 65_536,
            1 => 2,
            n => u32::from(n),
        };
        Period { ticks }
    }
}

impl Period {
    // The ticks of the whole period, as a number to count with.
    pub fn ticks(self) -> u64
        ensures { result ≡ self.ticks }
    {
        u64::from(self.ticks)
    }

    // How many ticks the high or the low half takes.
    pub fn half_length(self, high: bool) -> u64
        ensures { result ≡ half_length high self.ticks }
    {
        if high {
            self.ticks().div_ceil(2)
        } else {
            self.ticks() / 2
        }
    }
}
