// Boards with the timer in slot 0 and the other slots empty, and boards with a timer in each slot.
use crate::call::{Call, answer_of_advance};
use agenda::MOST_NODES;
use board::Board;
use device::{Divider, Empty};
use i8254::Timer;
use rules::QueuedWrite;
use slots::{Fitted, Slots};

// Of the standard fitting.
const FACTOR: u64 = 12;

const UNUSED: QueuedWrite = QueuedWrite {
    tick: 0,
    port: 0,
    byte: 0,
};

fn timer_behind(factor: u64) -> Divider<Timer> {
    Divider::new(factor, Timer::power_on())
}

fn one_timer(factor: u64) -> Fitted<Divider<Timer>, Empty, Empty, Empty> {
    Fitted {
        slot_0: timer_behind(factor),
        slot_1: Empty,
        slot_2: Empty,
        slot_3: Empty,
    }
}

// Performs the calls one after the other on a new board, and stores each one's answer.
fn perform_all<F: Slots + Drop>(
    slots: F,
    nodes: &mut [QueuedWrite],
    calls: &[Call],
    answers: &mut [u64],
) {
    let mut board = Board::new(slots, nodes);
    for (call, answer) in calls.iter().zip(answers) {
        *answer = call.perform(&mut board);
    }
}

// With so many nodes, 4,096 at most.
#[unsafe(no_mangle)]
pub extern "C" fn bench_perform(factor: u64, nodes: usize, calls: &[Call], answers: &mut [u64]) {
    let mut lent = [UNUSED; MOST_NODES];
    let nodes = &mut lent[..nodes.min(MOST_NODES)];
    perform_all(one_timer(factor), nodes, calls, answers);
}

// The same with a timer in each slot, each behind a divider of its own.
#[unsafe(no_mangle)]
pub extern "C" fn bench_perform_four(
    factor: u64,
    nodes: usize,
    calls: &[Call],
    answers: &mut [u64],
) {
    let mut lent = [UNUSED; MOST_NODES];
    let nodes = &mut lent[..nodes.min(MOST_NODES)];
    let slots = Fitted {
        slot_0: timer_behind(factor),
        slot_1: timer_behind(factor.wrapping_add(1)),
        slot_2: timer_behind(factor.wrapping_add(2)),
        slot_3: timer_behind(factor.wrapping_add(3)),
    };
    perform_all(slots, nodes, calls, answers);
}

// Performs the calls on a new board, and then advances it by n ticks for so many times. Answers the sum of the advances' answers.
#[unsafe(no_mangle)]
pub extern "C" fn bench_advances(calls: &[Call], n: u64, times: u64) -> u64 {
    let mut lent = [UNUSED; MOST_NODES];
    let mut board = Board::new(one_timer(FACTOR), &mut lent);
    for call in calls {
        let _ = call.perform(&mut board);
    }
    let mut sum = 0u64;
    for _ in 0..times {
        sum = sum.wrapping_add(answer_of_advance(board.advance(n)));
    }
    sum
}
