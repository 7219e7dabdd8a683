// The definitions and laws of removing redundant places from a list: document 01, "Thinning and
// writing", where it is called thinning. It has no code.
#![tactic(auto)]
