// Counts of sixteen bits, in which 65,536 is written as 0.
ghost use Rattle.std.specs.Prelude.{◌≡◌, ◌%◌, ◌==◌, cond};

// Counting is modulo 65,536.
pub const MODULUS: u64 = 65_536;

// How many ticks the bits stand for.
pub fn ticks_of(bits: u16) -> u64
    ensures { result ≡ cond (bits == 0) 65536 bits }
{
    if bits == 0 { MODULUS } else { u64::from(bits) }
}

// The bits that stand for so many ticks.
pub fn bits_of(ticks: u64) -> u16
    ensures { result ≡ ticks % 65536 }
{
    (ticks % MODULUS) as u16
}
