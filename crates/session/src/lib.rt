// Carries out the lines of a console on a board.
#![tactic(auto)]

mod lines;

pub use lines::answer;
