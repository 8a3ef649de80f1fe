// Runs of calls.
ghost use Rattle.std.specs.Prelude.{◌≡◌};
ghost use Rattle.mixtures.specs.Runs.{Runs, RunsNew};

use board::Board;
use rules::{Answer, Call, QueuedWrite};
use slots::Slots;

// A call, and the place for its answer: so there is never too little room for the answers of a run.
#[derive(Clone, Copy, PartialEq, Eq, Debug)]
pub struct Step {
    pub call: Call,
    pub answer: Answer,
}

impl Step {
    // A call that is still to be made.
    pub fn new(call: Call) -> Step
        ensures { result ≡ record { call = call; answer = Answer.Done } }
    {
        Step {
            call,
            answer: Answer::Done,
        }
    }
}

// Makes the calls one after the other, and leaves each answer beside its call. A refusal is an answer too: the run goes on behind it.
pub fn run<F: Slots>(board: &mut Board<'_, F>, steps: &mut [Step])
    ensures { Runs ⟦<F as Slots>⟧ steps.old steps.new board.old board.new }
{
    for step in steps.iter_mut() {
        step.answer = board.call(step.call);
    }
}

// Makes a board, and makes the calls on it.
pub fn run_new<'n, F: Slots>(
    slots: F,
    nodes: &'n mut [QueuedWrite],
    steps: &mut [Step],
) -> Board<'n, F>
    ensures { RunsNew ⟦<F as Slots>⟧ slots nodes.entry steps.old steps.new result }
{
    let mut board = Board::new(slots, nodes);
    run(&mut board, steps);
    board
}
