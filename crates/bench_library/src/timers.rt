// The timer alone, with its own ticks.
use device::Device;
use i8254::Timer;

const CONTROL: u16 = 3;

// Programs channel 0.
fn programmed(word: u8, low: u8, high: u8) -> Timer {
    let mut timer = Timer::power_on();
    timer.write(CONTROL, word);
    timer.write(0, low);
    timer.write(0, high);
    timer
}

// Skips n ticks for so many times, and answers how often the timer was high then.
#[unsafe(no_mangle)]
pub extern "C" fn bench_timer_skip(word: u8, low: u8, high: u8, n: u64, times: u64) -> u64 {
    let mut timer = programmed(word, low, high);
    let mut sum = 0u64;
    for _ in 0..times {
        timer.skip(n);
        sum = sum.wrapping_add(u64::from(timer.level()));
    }
    sum
}

// Announces for so many times, each time n ticks later, and answers the sum of what was announced.
#[unsafe(no_mangle)]
pub extern "C" fn bench_timer_announce(word: u8, low: u8, high: u8, n: u64, times: u64) -> u64 {
    let mut timer = programmed(word, low, high);
    let mut sum = 0u64;
    for _ in 0..times {
        timer.skip(n);
        if let Some(ticks) = timer.announce() {
            sum = sum.wrapping_add(ticks);
        }
    }
    sum
}
