// Levels that flip.
ghost use Rattle.std.specs.Prelude.{◌≡◌};
ghost use Rattle.rules.specs.Flips.{flips};

// The level after it has flipped so many times.
pub fn flipped(level: bool, times: u64) -> bool
    ensures { result ≡ flips times level }
{
    if times % 2 == 0 { level } else { !level }
}
