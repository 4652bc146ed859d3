#![tactic(auto)]

// Laws only: two more ways to the sums of a block, which are the same sums. There is no code.
