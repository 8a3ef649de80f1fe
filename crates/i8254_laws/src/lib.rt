// Laws of the 8254's counters: where a counter stands after any number of ticks, and when its OUT changes.
#![tactic(auto)]
