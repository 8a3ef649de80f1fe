// The waves that OUT shows from a fresh count on.
ghost use Rattle.i8254_laws.specs.Waves.{WaveLaws};

// In mode 0 OUT rises once, in mode 2 it is low for one tick in each period, and in mode 3 a period's halves differ by at most
// one tick.
pub fn wave_laws_hold()
    ensures { WaveLaws }
{}
