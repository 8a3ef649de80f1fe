// Reads the lines of a console as commands.
#![tactic(auto)]

mod command;
mod line;
mod numbers;
mod words;

pub use command::{Command, Unreadable};
pub use line::{commands_read_back, parse};
pub use numbers::number;
