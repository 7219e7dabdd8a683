// What a log is, and the type of what checking it answers: document 01, "Settings and the log". It
// has no code.
#![tactic(auto)]

// What checking a log answers where nothing is refused: how many frames it has, and how many cases
// (N).
#[derive(Clone, Copy, Drop)]
pub struct LogSize {
    pub frames: usize,
    pub cases: u64,
}
