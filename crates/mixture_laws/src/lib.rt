// Laws of mixtures of calls on the tick board: an advance may be cut, and a device exchanged. They stand in specs/.
#![tactic(auto)]
