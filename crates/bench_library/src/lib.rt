// The proved board, agenda and timer as a static library, for the benchmarks in bench/ alone: no product calls it. Each export makes what
// it measures, works on it in a loop, and answers a sum of all that it was answered, which the harness compares with its other boards.
// The exports promise no more than that they are safe; what the calls in them do is proved in their own crates.
#![tactic(auto)]

mod agendas;
mod boards;
mod call;
mod timers;
