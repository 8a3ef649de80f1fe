// Laws of the tick board: why time may jump. They stand in specs/.
#![tactic(auto)]
