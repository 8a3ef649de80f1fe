// The rules of the board: the definitions stand in specs/, and the code here is what the other crates share of them.
#![tactic(auto)]

ghost use Rattle.rules.specs.Examples.{WorkedExamples};

pub mod calls;
pub mod queued;
pub mod refusal;

pub use calls::{Answer, Call};
pub use queued::QueuedWrite;
pub use refusal::{Layer, Refusal};

// The worked examples hold of the rules, for a divider over any kind of device whose states are an S.
pub fn worked_examples_hold<S>()
    ensures { WorkedExamples S }
{}
