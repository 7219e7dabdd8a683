// Demand 3 of the written demands, as a claim about the definitions: any two runs on one log under
// the same settings, and both reductions. It has no code.
#![tactic(auto)]
