// What a pulse generator shows at its ports, by what specs/Pulse.antt says of it.
use device::{Device, Divider};
use pulse::Pulse;

// A generator that was started low, with this reload value.
fn running(low: u8, high: u8) -> Pulse {
    let mut p = Pulse::new();
    p.write(0, low);
    p.write(1, high);
    p.write(2, 1);
    p
}

// The count modulo 65,536, the running bit with the level, and the announcement.
fn seen(p: &mut Pulse) -> (u8, u8, u8, Option<u64>) {
    (p.read(0), p.read(1), p.read(2), p.announce())
}

#[test]
fn power_on(rt: HostRuntime) {
    let mut p = Pulse::new();
    assert_eq!(rt; seen(&mut p), (0, 0, 0, None));
    p.skip(1 << 32);
    assert_eq!(rt; seen(&mut p), (0, 0, 0, None));
    assert_eq!(rt; p.level(), false);
    assert_eq!(rt; <Pulse as Device>::WIDTH, 4);
    assert_eq!(rt; <Pulse as Device>::ports(), 4);
}

#[test]
fn counts_down_and_flips(rt: HostRuntime) {
    let mut p = running(2, 1);
    assert_eq!(rt; seen(&mut p), (2, 1, 1, Some(258)));
    p.skip(257);
    assert_eq!(rt; seen(&mut p), (1, 0, 1, Some(1)));
    p.skip(1);
    assert_eq!(rt; seen(&mut p), (2, 1, 3, Some(258)));
}

#[test]
fn jumps_are_single_ticks(rt: HostRuntime) {
    let mut stepped = running(5, 0);
    for n in 0..23 {
        let mut jumped = running(5, 0);
        jumped.skip(n);
        assert_eq!(rt; jumped.level(), n / 5 % 2 == 1);
        assert_eq!(rt; seen(&mut jumped), seen(&mut stepped));
        stepped.skip(1);
    }
}

// A new reload value waits until the present count has run out.
#[test]
fn reload_while_running(rt: HostRuntime) {
    let mut p = running(10, 0);
    p.skip(3);
    p.write(0, 4);
    assert_eq!(rt; seen(&mut p), (7, 0, 1, Some(7)));
    p.skip(7 + 4 + 1);
    assert_eq!(rt; seen(&mut p), (3, 0, 1, Some(3)));
}

#[test]
fn sixteen_zero_bits(rt: HostRuntime) {
    let mut p = running(0, 0);
    assert_eq!(rt; seen(&mut p), (0, 0, 1, Some(65_536)));
    p.skip(65_537);
    assert_eq!(rt; seen(&mut p), (255, 255, 3, Some(65_535)));
}

// 2^32 is 1 more than a multiple of 3, and holds 1,431,655,765 threes.
#[test]
fn long_skips(rt: HostRuntime) {
    for n in [1 << 32, (1 << 32) + 1, u64::MAX] {
        let mut p = running(3, 0);
        p.skip(n);
        assert_eq!(rt; seen(&mut p), (2, 0, 3, Some(2)));
    }
}

#[test]
fn accesses(rt: HostRuntime) {
    let mut p = running(9, 0);
    p.write(2, 0xFF);
    assert_eq!(rt; p.read(3), 1);
    assert_eq!(rt; p.read(3), 0);
    p.write(3, 0xFF);
    p.write(4, 0xFF);
    assert_eq!(rt; p.read(4), 0xFF);
    assert_eq!(rt; seen(&mut p), (9, 0, 1, Some(9)));
    p.write(2, 2);
    assert_eq!(rt; seen(&mut p), (9, 0, 2, None));
}

#[test]
fn behind_a_divider(rt: HostRuntime) {
    let mut d = Divider::new(7, running(5, 0));
    assert_eq!(rt; d.announce(), Some(35));
    d.skip(34);
    assert_eq!(rt; d.level(), false);
    d.skip(1);
    assert_eq!(rt; d.level(), true);
}

// Both are numbers from 1 to 65,536.
#[test]
fn counts(rt: HostRuntime) {
    let mut p = running(2, 1);
    p.skip(3);
    assert_eq!(rt; p.counts(), (258, 255));
    assert_eq!(rt; Pulse::new().counts(), (65_536, 65_536));
}
