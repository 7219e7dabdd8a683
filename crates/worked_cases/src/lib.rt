// The worked cases of document 01: M1 to M12 and the case of placelist, as one theorem over the
// definitions (specs/, proofs/).
#![tactic(auto)]
