use board::Board;
use device::{Device, Divider, Empty};
use i8254::Timer;
use pulse::Pulse;
use rules::{QueuedWrite, Refusal};
use slots::Fitted;

// Time ends at 2^48.
const END: u64 = 1 << 48;

const LONGEST_ADVANCE: u64 = 1 << 32;

const FREE: QueuedWrite = QueuedWrite {
    tick: 0,
    port: 0,
    byte: 0,
};

// A write to the master's mask, which reads back.
fn at(tick: u64, byte: u8) -> QueuedWrite {
    QueuedWrite {
        tick,
        port: 0x21,
        byte,
    }
}

// A board with nothing in its slots.
fn bare(nodes: &mut [QueuedWrite]) -> Board<'_, Fitted<Empty, Empty, Empty, Empty>> {
    let slots = Fitted {
        slot_0: Empty,
        slot_1: Empty,
        slot_2: Empty,
        slot_3: Empty,
    };
    Board::new(slots, nodes)
}

// A timer behind a divider of 12, and nothing else.
fn timed(nodes: &mut [QueuedWrite]) -> Board<'_, Fitted<Divider<Timer>, Empty, Empty, Empty>> {
    let slots = Fitted {
        slot_0: Divider::new(12, Timer::power_on()),
        slot_1: Empty,
        slot_2: Empty,
        slot_3: Empty,
    };
    Board::new(slots, nodes)
}

// Generators in slots 1 and 2, which flip every so many ticks.
fn beating(
    slot_1: u8,
    slot_2: u8,
    nodes: &mut [QueuedWrite],
) -> Board<'_, Fitted<Empty, Pulse, Pulse, Empty>> {
    let slots = Fitted {
        slot_0: Empty,
        slot_1: flipping(slot_1),
        slot_2: flipping(slot_2),
        slot_3: Empty,
    };
    Board::new(slots, nodes)
}

// A generator that was started low, and flips every n ticks.
fn flipping(n: u8) -> Pulse {
    let mut pulse = Pulse::new();
    pulse.write(0, n);
    pulse.write(2, 1);
    pulse
}

#[test]
fn two_nodes_hold_two_writes(rt: HostRuntime) {
    let mut nodes = [FREE; 2];
    let mut board = bare(&mut nodes);
    assert_eq!(rt; board.queue(at(5, 1)), Ok(()));
    assert_eq!(rt; board.queue(at(7, 2)), Ok(()));
    assert_eq!(rt; board.queue(at(6, 3)), Err(Refusal::QueueFull));
    assert_eq!(rt; board.advance(5), Ok(0));
    assert_eq!(rt; board.read(0x21), 1);
    assert_eq!(rt; board.queue(at(6, 3)), Ok(()));
    assert_eq!(rt; board.queue(at(8, 4)), Err(Refusal::QueueFull));
    assert_eq!(rt; board.advance(1), Ok(0));
    assert_eq!(rt; board.read(0x21), 3);
    assert_eq!(rt; board.advance(1), Ok(0));
    assert_eq!(rt; board.read(0x21), 2);
}

#[test]
fn no_nodes_hold_no_write(rt: HostRuntime) {
    let mut board = bare(&mut []);
    assert_eq!(rt; board.queue(at(1, 0)), Err(Refusal::QueueFull));
    assert_eq!(rt; board.queue(at(0, 0)), Err(Refusal::BadTick));
    assert_eq!(rt; board.advance(1), Ok(0));
}

#[test]
fn the_longest_advance(rt: HostRuntime) {
    let mut board = bare(&mut []);
    assert_eq!(rt;
        board.advance(LONGEST_ADVANCE + 1),
        Err(Refusal::LongAdvance)
    );
    assert_eq!(rt; board.advance(u64::MAX), Err(Refusal::LongAdvance));
    assert_eq!(rt; board.time(), 0);
    assert_eq!(rt; board.advance(LONGEST_ADVANCE), Ok(0));
    assert_eq!(rt; board.time(), LONGEST_ADVANCE);
}

#[test]
fn time_ends(rt: HostRuntime) {
    let mut nodes = [FREE; 1];
    let mut board = bare(&mut nodes);
    for _ in 1..END / LONGEST_ADVANCE {
        assert_eq!(rt; board.advance(LONGEST_ADVANCE), Ok(0));
    }
    assert_eq!(rt; board.advance(LONGEST_ADVANCE - 1), Ok(0));
    assert_eq!(rt; board.queue(at(END + 1, 9)), Err(Refusal::BadTick));
    assert_eq!(rt; board.queue(at(END - 1, 9)), Err(Refusal::BadTick));
    assert_eq!(rt; board.queue(at(END, 9)), Ok(()));
    assert_eq!(rt; board.advance(2), Err(Refusal::PastEnd));
    assert_eq!(rt; board.time(), END - 1);
    assert_eq!(rt; board.read(0x21), 0);
    assert_eq!(rt; board.advance(1), Ok(0));
    assert_eq!(rt; board.read(0x21), 9);
    assert_eq!(rt; board.advance(0), Ok(0));
    assert_eq!(rt; board.advance(1), Err(Refusal::PastEnd));
}

// Each width opens its own ports, and no more.
#[test]
fn ports_reach_their_slots(rt: HostRuntime) {
    let slots = Fitted {
        slot_0: Empty,
        slot_1: flipping(1),
        slot_2: Empty,
        slot_3: Divider::new(2, flipping(7)),
    };
    let mut board = Board::new(slots, &mut []);
    assert_eq!(rt; board.read(0x70), 1);
    assert_eq!(rt; board.read(0x74), 0xFF);
    assert_eq!(rt; board.read(0x2F8), 7);
    assert_eq!(rt; board.read(0x3F8), 0xFF);
    board.write(0x40, 3);
    board.write(0x3F8, 3);
    board.write(0x2FC, 3);
    assert_eq!(rt; board.read(0x70), 1);
    assert_eq!(rt; board.read(0x2F8), 7);
}

// Levels of four slots that change on one tick are four edges, with one handing: slots 1 to 3 flip every 2, 3 and 6 ticks, and
// the timer's OUT, from its tick 2 on, with each of its ticks.
#[test]
fn edges_are_counted_by_slot(rt: HostRuntime) {
    let slots = Fitted {
        slot_0: Divider::new(3, Timer::power_on()),
        slot_1: flipping(2),
        slot_2: flipping(3),
        slot_3: Divider::new(2, flipping(3)),
    };
    let mut board = Board::new(slots, &mut []);
    board.write(0x43, 0x16);
    board.write(0x40, 2);
    assert_eq!(rt; board.advance(5), Ok(2 + 1));
    assert_eq!(rt; board.advance(1), Ok(4));
    assert_eq!(rt; board.advance(6), Ok(3 + 2 + 1 + 2));
}

// A dip that two writes of one tick make is two edges, and a fresh request.
#[test]
fn a_dip_within_a_tick(rt: HostRuntime) {
    let mut nodes = [FREE; 2];
    let mut board = timed(&mut nodes);
    for (port, byte) in [
        (0x20, 0x11),
        (0x21, 0x08),
        (0x21, 0x04),
        (0x21, 0x01),
        (0x43, 0x34),
    ] {
        board.write(port, byte);
    }
    assert_eq!(rt; board.acknowledge(), 0x08);
    board.write(0x20, 0x20);
    assert_eq!(rt; board.acknowledge(), 0x0F);
    for byte in [0x34, 0x30] {
        let write = QueuedWrite {
            tick: 4,
            port: 0x43,
            byte,
        };
        assert_eq!(rt; board.queue(write), Ok(()));
    }
    assert_eq!(rt; board.advance(3), Ok(0));
    assert_eq!(rt; board.acknowledge(), 0x0F);
    assert_eq!(rt; board.advance(2), Ok(2));
    assert_eq!(rt; board.acknowledge(), 0x08);
}

// The slave's IRR shows that the level of slot 1 rises on ticks 5, 15 and 25, and falls on ticks 10 and 20.
#[test]
fn advances_that_end_at_a_change(rt: HostRuntime) {
    let mut board = beating(5, 100, &mut []);
    for (ticks, edges, requests) in [
        (4, 0, 0),
        (1, 1, 1),
        (0, 0, 1),
        (5, 1, 0),
        (4, 0, 0),
        (2, 1, 1),
        (8, 1, 0),
        (1, 1, 1),
    ] {
        assert_eq!(rt; board.advance(ticks), Ok(edges));
        assert_eq!(rt; board.read(0xA0), requests);
    }
}

#[test]
fn short_advances_make_the_edges_of_a_long_one(rt: HostRuntime) {
    let mut single = beating(3, 4, &mut []);
    for edges in [0, 0, 1, 1, 0, 1, 0, 1, 1, 0, 0, 2] {
        assert_eq!(rt; single.advance(1), Ok(edges));
    }
    let mut double = beating(3, 4, &mut []);
    for edges in [0, 2, 1, 1, 1, 2] {
        assert_eq!(rt; double.advance(2), Ok(edges));
    }
    let mut long = beating(3, 4, &mut []);
    assert_eq!(rt; long.advance(12), Ok(4 + 3));
}

// A mask on tick 7, and on tick 15 an initialisation word, which takes back what the rise of that tick requested.
#[test]
fn queued_writes_to_a_controller(rt: HostRuntime) {
    let mut nodes = [FREE; 2];
    let mut board = beating(5, 100, &mut nodes);
    for (tick, port, byte) in [(7, 0xA1, 1), (15, 0xA0, 0x10)] {
        assert_eq!(rt; board.queue(QueuedWrite { tick, port, byte }), Ok(()));
    }
    assert_eq!(rt; board.advance(6), Ok(1));
    assert_eq!(rt; board.read(0xA1), 0);
    assert_eq!(rt; board.advance(1), Ok(0));
    assert_eq!(rt; board.read(0xA1), 1);
    assert_eq!(rt; board.advance(2), Ok(0));
    assert_eq!(rt; board.advance(1), Ok(1));
    assert_eq!(rt; board.advance(5), Ok(1));
    assert_eq!(rt; board.read(0xA0), 0);
    assert_eq!(rt; board.advance(5), Ok(1));
}

// OUT would rise with the timer's tenth tick, on tick 120. The count of 4 that comes on tick 50 makes it the fifth from tick 60 on.
#[test]
fn a_queued_count_moves_the_change(rt: HostRuntime) {
    let mut nodes = [FREE; 1];
    let mut board = timed(&mut nodes);
    board.write(0x43, 0x10);
    board.write(0x40, 9);
    assert_eq!(rt; board.advance(49), Ok(0));
    let write = QueuedWrite {
        tick: 50,
        port: 0x40,
        byte: 4,
    };
    assert_eq!(rt; board.queue(write), Ok(()));
    assert_eq!(rt; board.advance(58), Ok(0));
    assert_eq!(rt; board.advance(1), Ok(1));
    assert_eq!(rt; board.read(0x20), 1);
    assert_eq!(rt; board.advance(12), Ok(0));
}

// The counter of a count of 3, and the request of OUT, which rises with the timer's fourth tick.
#[test]
fn reads_between_short_advances(rt: HostRuntime) {
    let mut board = timed(&mut []);
    board.write(0x43, 0x10);
    board.write(0x40, 3);
    for (ticks, edges, counter, requests) in [
        (11, 0, 0, 0),
        (1, 0, 3, 0),
        (11, 0, 3, 0),
        (1, 0, 2, 0),
        (12, 0, 1, 0),
        (11, 0, 1, 0),
        (1, 1, 0, 1),
        (12, 0, 0xFF, 1),
    ] {
        assert_eq!(rt; board.advance(ticks), Ok(edges));
        assert_eq!(rt; board.read(0x20), requests);
        assert_eq!(rt; board.read(0x40), counter);
    }
}

// A read lowers the level that rose on tick 5, so that it rises again on tick 10.
#[test]
fn a_read_that_lowers_a_level(rt: HostRuntime) {
    let mut board = beating(5, 100, &mut []);
    assert_eq!(rt; board.advance(6), Ok(1));
    assert_eq!(rt; board.read(0x73), 1);
    assert_eq!(rt; board.read(0xA0), 0);
    assert_eq!(rt; board.advance(3), Ok(0));
    assert_eq!(rt; board.advance(1), Ok(1));
    assert_eq!(rt; board.read(0xA0), 1);
}

// The divider is at phase 5 when the timer gets its count of 1: 12 goes into three times 2^32.
#[test]
fn a_timer_after_idle_advances(rt: HostRuntime) {
    let mut board = timed(&mut []);
    for _ in 0..3 {
        assert_eq!(rt; board.advance(LONGEST_ADVANCE), Ok(0));
    }
    assert_eq!(rt; board.advance(5), Ok(0));
    board.write(0x43, 0x10);
    board.write(0x40, 1);
    assert_eq!(rt; board.advance(7 + 11), Ok(0));
    assert_eq!(rt; board.advance(1), Ok(1));
}
