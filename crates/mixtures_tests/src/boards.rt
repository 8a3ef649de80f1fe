// The six boards of a mixture.
use crate::printing::print_board;
use crate::reading::Mixture;
use crate::unread::Unread;
use device::Divider;
use i8254::Timer;
use mixtures::run_side_by_side;
use pulse::Pulse;
use rules::QueuedWrite;
use slots::Fitted;
use std::alloc::{AllocError, Global};

// A node that no write waits in.
const FREE: QueuedWrite = QueuedWrite {
    tick: 0,
    port: 0,
    byte: 0,
};

fn free_nodes(alloc: Global, nodes: usize) -> Result<Vec<QueuedWrite>, AllocError> {
    vec![in alloc; FREE; nodes]
}

fn slow_timer() -> Divider<Timer> {
    Divider::new(12, Timer::power_on())
}

fn slow_pulse() -> Divider<Pulse> {
    Divider::new(3, Pulse::new())
}

fn fitted() -> Fitted<Divider<Timer>, Pulse, Divider<Pulse>, Pulse> {
    Fitted {
        slot_0: slow_timer(),
        slot_1: Pulse::new(),
        slot_2: slow_pulse(),
        slot_3: Pulse::new(),
    }
}

// Runs a mixture on its boards, and prints what they answer.
pub fn play(rt: &(impl Print + AllocGlobal), mixture: &Mixture) -> anyhow::Result<()> {
    let alloc = rt.alloc();
    let mut nodes = free_nodes(alloc, mixture.nodes)?;
    let mut cut_nodes = free_nodes(alloc, mixture.nodes)?;
    let mut nodes_0 = free_nodes(alloc, mixture.nodes)?;
    let mut nodes_1 = free_nodes(alloc, mixture.nodes)?;
    let mut nodes_2 = free_nodes(alloc, mixture.nodes)?;
    let mut nodes_3 = free_nodes(alloc, mixture.nodes)?;
    let mut steps = mixture.whole.clone()?;
    let mut cut_steps = mixture.cut.clone()?;
    let mut steps_0 = mixture.whole.clone()?;
    let mut steps_1 = mixture.whole.clone()?;
    let mut steps_2 = mixture.whole.clone()?;
    let mut steps_3 = mixture.whole.clone()?;
    let slots_0 = Fitted {
        slot_0: Unread::new(slow_timer()),
        slot_1: Pulse::new(),
        slot_2: slow_pulse(),
        slot_3: Pulse::new(),
    };
    let slots_1 = Fitted {
        slot_0: slow_timer(),
        slot_1: Unread::new(Pulse::new()),
        slot_2: slow_pulse(),
        slot_3: Pulse::new(),
    };
    let slots_2 = Fitted {
        slot_0: slow_timer(),
        slot_1: Pulse::new(),
        slot_2: Unread::new(slow_pulse()),
        slot_3: Pulse::new(),
    };
    let slots_3 = Fitted {
        slot_0: slow_timer(),
        slot_1: Pulse::new(),
        slot_2: slow_pulse(),
        slot_3: Unread::new(Pulse::new()),
    };
    let boards = run_side_by_side(
        fitted(),
        &mut nodes,
        &mut steps,
        fitted(),
        &mut cut_nodes,
        &mut cut_steps,
        slots_0,
        &mut nodes_0,
        &mut steps_0,
        slots_1,
        &mut nodes_1,
        &mut steps_1,
        slots_2,
        &mut nodes_2,
        &mut steps_2,
        slots_3,
        &mut nodes_3,
        &mut steps_3,
    );
    let name = mixture.name.as_str();
    print_board(rt, name, "whole", &steps, &boards.whole)?;
    print_board(rt, name, "cut", &cut_steps, &boards.cut)?;
    print_board(rt, name, "exchanged 0", &steps_0, &boards.exchanged_0)?;
    print_board(rt, name, "exchanged 1", &steps_1, &boards.exchanged_1)?;
    print_board(rt, name, "exchanged 2", &steps_2, &boards.exchanged_2)?;
    print_board(rt, name, "exchanged 3", &steps_3, &boards.exchanged_3)?;
    Ok(())
}
