// The variants of a log and their summary, the type of an entry of it, and what the call answers:
// document 02, b). It has no code.
#![tactic(auto)]

// A variant of a log's traces, document 02's kind: its first line, how many frames are of it, and
// their cases.
#[derive(Clone, Copy, Default)]
pub struct Variant {
    pub first_line: usize,
    pub frames: usize,
    pub cases: u64,
}

// The words of an entry: the first line, the frames and the cases of a variant.
pub const ENTRY_WORDS: usize = 3;
