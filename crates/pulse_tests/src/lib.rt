// Examples of the pulse generator.
#![tactic(auto)]

#[cfg(test)]
mod tests;
