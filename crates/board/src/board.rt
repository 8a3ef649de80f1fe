// What a board holds. Its calls are in the modules below, since their contracts cite a view of this struct.
ghost use Rattle.std.specs.Prelude.{◌≡◌, ◌-◌};
ghost use Rattle.rules.specs.I8259.{drive_lines};
ghost use Rattle.rules.specs.Board.{on_line, lines};
ghost use Rattle.slots.specs.Slots.{levels_of, AllStill};
ghost use Rattle.board.specs.Quiet.{quiet_after};

use agenda::Agenda;
use handing::Ports;
use rules::QueuedWrite;
use slots::{Slots, Target};

mod advance;
mod calls;
mod deadlines;
mod handing;

// Time ends here, after 2^48 ticks.
const END_OF_TIME: u64 = 1 << 48;

// Before which tick no level changes, once a port has reached the target, if it was `quiet_until` before: a slot that is reached may change
// its level at any tick, and the controllers change no slot.
fn quiet_after(target: Target, quiet_until: u64) -> u64
    ensures { result ≡ quiet_after target quiet_until }
{
    match target {
        Target::Slot(..) => 0,
        Target::Chip(..) | Target::OpenBus => quiet_until,
    }
}

// Between its calls a board is settled: one more handing of the levels would change nothing and give no edge.
// It has no `impl Model`: what it stands for depends on what its slots mean, and a model's value cannot name a bound's ghost members.
#[derive(Drop)]
pub struct Board<'a, F: Slots> {
    time: u64,
    // No slot's level changes on the ticks before this one, unless a port reaches it.
    quiet_until: u64,
    ports: Ports<F>,
    queue: Agenda<'a, QueuedWrite>,
    ghost handed_over: { ports.handed ≡ levels_of F.fitting (F.states ports.slots) },
    ghost driven: { drive_lines (on_line lines ports.handed) ports.pair ≡ ports.pair },
    ghost quiet: { AllStill F.fitting (quiet_until - time) (F.states ports.slots) },
}
