// The laws of the stated order of sets and candidates, which `places` defines: document 01,
// "Candidates and their order". It has no code.
#![tactic(auto)]
