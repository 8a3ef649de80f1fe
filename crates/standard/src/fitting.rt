// The standard fitting: slot 0 has the 8254 behind a divider of 12, the other slots are empty.
ghost use Rattle.std.specs.Prelude.{◌≡◌, ◌++◌, length, take, drop};
ghost use Rattle.rules.specs.Board.{new_board};
ghost use Rattle.rules.specs.Device.{divide};
ghost use Rattle.rules.specs.I8254.{power_on_timer};
ghost use Rattle.rules.specs.Trace.{printed, standard};
ghost use Rattle.board.specs.View.{view};
ghost use Rattle.standard.specs.Fitting.{states};

use crate::operated::Operated;
use board::Board;
use device::{Divider, Empty};
use i8254::Timer;
use rules::QueuedWrite;
use slots::Fitted;
use trace::run_trace;

// How many writes can be queued at a time.
const NODES: usize = 256;

// The timer counts at a twelfth of the board's ticks.
const TIMER_FACTOR: u64 = 12;

// What stands in a node before a write does.
const FREE_NODE: QueuedWrite = QueuedWrite {
    tick: 0,
    port: 0,
    byte: 0,
};

// A new board of the standard fitting.
pub fn standard_board(
    nodes: &mut [QueuedWrite],
) -> Board<'_, Fitted<Divider<Timer>, Empty, Empty, Empty>>
    ensures board { view states result ≡ new_board standard (length nodes.old) (divide 12 power_on_timer) tt tt tt }
    ensures nodes { result.queue.nodes ≡ nodes.entry }
{
    let slots = Fitted {
        slot_0: Divider::new(TIMER_FACTOR, Timer::power_on()),
        slot_1: Empty,
        slot_2: Empty,
        slot_3: Empty,
    };
    Board::new(slots, nodes)
}

// Runs a trace on a new board of the standard fitting, and prints its lines into `out`, as far as there is room. The answer is
// how many bytes were printed; what lies behind them is not touched.
pub fn run_standard(trace: &[u8], out: &mut [u8]) -> usize
    ensures count { result ≡ length (take (length out.old) (printed (length out.old) trace.now)) }
    ensures lines { out.new ≡ take (length out.old) (printed (length out.old) trace.now) ++ drop result out.old }
{
    let mut nodes = [FREE_NODE; NODES];
    let mut machine = Operated {
        board: standard_board(&mut nodes),
    };
    run_trace(&mut machine, trace, out)
}
