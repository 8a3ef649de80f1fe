// Lines of the console as commands, and replies as lines.
#![tactic(auto)]

#[cfg(test)]
mod tests;
