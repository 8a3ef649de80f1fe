// Boards of a few devices and nodes, whose answers are known from the rules.
#![tactic(auto)]

#[cfg(test)]
mod tests;
