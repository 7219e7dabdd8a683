// The lowest layer: words for lists and lent buffers that every other layer's definitions use
// (specs/). It has no code.
#![tactic(auto)]
