// Examples of dividers, by the rules alone.
use crate::square_wave::SquareWave;
use device::{Device, Divider, Empty};

type Twice = Divider<Divider<SquareWave>>;

// Level, announcement and a byte: what can be seen of a device.
fn seen<D: Device>(d: &mut D) -> (bool, Option<u64>, u8) {
    (d.level(), d.announce(), d.read(0))
}

// A level that turns every 3 * 4 * 2 ticks.
fn nested() -> Twice {
    Divider::new(3, Divider::new(4, SquareWave::new(1)))
}

#[test]
fn twelve(rt: HostRuntime) {
    let mut d = Divider::new(12, SquareWave::new(0));
    assert_eq!(rt; seen(&mut d), (false, Some(12), 0));
    d.skip(11);
    assert_eq!(rt; seen(&mut d), (false, Some(1), 0));
    d.skip(1);
    assert_eq!(rt; seen(&mut d), (true, Some(12), 0));
}

#[test]
fn factors(rt: HostRuntime) {
    assert_eq!(rt; Divider::new(1, SquareWave::new(0)).announce(), Some(1));
    assert_eq!(rt; Divider::new(64, SquareWave::new(0)).announce(), Some(64));
    assert_eq!(rt; Divider::new(0, SquareWave::new(0)).announce(), Some(1));
    assert_eq!(rt; Divider::new(65, SquareWave::new(0)).announce(), Some(1));
}

#[test]
fn single_ticks(rt: HostRuntime) {
    let mut stepped = nested();
    for n in 0..60 {
        let mut jumped = nested();
        jumped.skip(n);
        assert_eq!(rt; seen(&mut jumped), (n / 24 % 2 == 1, Some(24 - n % 24), 1));
        assert_eq!(rt; seen(&mut stepped), seen(&mut jumped));
        stepped.skip(1);
    }
}

// 2^32 is 4 more than a multiple of 42, the period of the wave.
#[test]
fn long_skips(rt: HostRuntime) {
    for n in [1 << 32, (1 << 32) + 1, u64::MAX] {
        let mut d = Divider::new(7, SquareWave::new(2));
        d.skip(n);
        assert_eq!(rt; seen(&mut d), (false, Some(17), 2));
    }
    let mut d = Divider::new(7, SquareWave::new(2));
    d.skip(0);
    assert_eq!(rt; seen(&mut d), (false, Some(21), 2));
}

// Four dividers of 64 over a half of 256 turn every 2^32 ticks, which is just in sight.
#[test]
fn horizon(rt: HostRuntime) {
    let three = Divider::new(64, Divider::new(64, Divider::new(64, SquareWave::new(255))));
    let mut d = Divider::new(64, three);
    assert_eq!(rt; d.announce(), Some(1 << 32));
    d.skip(1);
    assert_eq!(rt; d.announce(), Some((1 << 32) - 1));
    let mut slower = Divider::new(2, d);
    slower.skip((1 << 32) - 3);
    assert_eq!(rt; slower.announce(), None);
    slower.skip(1);
    assert_eq!(rt; slower.announce(), Some(1 << 32));
}

#[test]
fn accesses(rt: HostRuntime) {
    let mut d = Divider::new(12, SquareWave::new(0));
    d.skip(5);
    d.write(0, 9);
    d.write(1, 3);
    assert_eq!(rt; seen(&mut d), (false, Some(115), 9));
    let mut wave = SquareWave::new(9);
    wave.skip(13);
    assert_eq!(rt; wave.progress(), (10, 3));
    assert_eq!(rt; d.read(1), 0xFF);
}

#[test]
fn empty(rt: HostRuntime) {
    let mut d = Divider::new(3, Empty);
    d.write(0, 1);
    d.skip(5);
    assert_eq!(rt; seen(&mut d), (false, None, 0xFF));
    assert_eq!(rt; <Divider<Empty> as Device>::WIDTH, 1);
    assert_eq!(rt; <Divider<Empty> as Device>::ports(), 1);
}

// Level and announcement alone: these look at a divider without giving its inner device the ticks that it lacks.
fn shown<D: Device>(d: &D) -> (bool, Option<u64>) {
    (d.level(), d.announce())
}

#[test]
fn factor_1(rt: HostRuntime) {
    let mut d = Divider::new(1, SquareWave::new(2));
    for n in 0..9 {
        assert_eq!(rt; shown(&d), (n / 3 % 2 == 1, Some(3 - n % 3)));
        d.skip(1);
    }
}

#[test]
fn short_skips(rt: HostRuntime) {
    let mut d = Divider::new(12, SquareWave::new(9));
    for (skipped, left) in [(50, 70), (50, 20), (0, 20), (19, 1)] {
        d.skip(skipped);
        assert_eq!(rt; shown(&d), (false, Some(left)));
    }
    d.skip(1);
    assert_eq!(rt; shown(&d), (true, Some(120)));
    // Past two changes at once.
    d.skip(300);
    assert_eq!(rt; shown(&d), (true, Some(60)));
    d.skip(60);
    assert_eq!(rt; shown(&d), (false, Some(120)));
}

#[test]
fn accesses_between(rt: HostRuntime) {
    let mut d = Divider::new(12, SquareWave::new(9));
    d.skip(50);
    assert_eq!(rt; d.read(0), 9);
    assert_eq!(rt; shown(&d), (false, Some(70)));
    d.skip(50);
    // Its new half is two inner ticks, of which the phase of 4 is spent already.
    d.write(0, 1);
    assert_eq!(rt; shown(&d), (false, Some(20)));
    d.skip(20);
    assert_eq!(rt; shown(&d), (true, Some(24)));
}

#[test]
fn no_change(rt: HostRuntime) {
    for factor in [1, 2, 64] {
        let mut d = Divider::new(factor, Empty);
        for _ in 0..200 {
            d.skip(u64::MAX);
            assert_eq!(rt; shown(&d), (false, None));
        }
    }
}

// Five dividers of 64 over a half of 256 turn every 2^38 ticks, of which only the last 2^32 are in sight.
#[test]
fn longest_skips(rt: HostRuntime) {
    let three = Divider::new(64, Divider::new(64, Divider::new(64, SquareWave::new(255))));
    let mut d = Divider::new(64, Divider::new(64, three));
    for high in [false, true, false] {
        for _ in 0..63 {
            assert_eq!(rt; shown(&d), (high, None));
            d.skip(1 << 32);
        }
        assert_eq!(rt; shown(&d), (high, Some(1 << 32)));
        d.skip(1 << 32);
    }
}
