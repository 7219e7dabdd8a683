// All of the program placelist but its reads and writes: document 01, "Thinning and writing", last
// paragraph. It has no code.
#![tactic(auto)]
