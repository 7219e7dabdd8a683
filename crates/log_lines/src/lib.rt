// The lines of a log, one by one: document 01, "Settings and the log".
#![tactic(auto)]

pub mod line; // line.rt: checking a line

// The byte that ends a line.
pub const LINE_FEED: u8 = b'\n';

// The digits of a case count, and of an activity code.
pub const COUNT_DIGITS: usize = 8;

pub const CODE_DIGITS: usize = 2;

// The most activities of a line; the fewest are two.
pub const MOST_EVENTS: usize = 254;

// The digits of the shortest and of the longest line: a count and the codes.
pub const SHORTEST_LINE: usize = COUNT_DIGITS + 2 * CODE_DIGITS;

pub const LONGEST_LINE: usize = COUNT_DIGITS + MOST_EVENTS * CODE_DIGITS;

// The most frames of a log.
pub const MOST_FRAMES: usize = 4096;

// Where a trace stands between its start and its end.
#[derive(Clone, Copy, Drop)]
pub enum Phase {
    Before,
    Inside,
    Complete,
    Misplaced,
}

impl Phase {
    ghost use Rattle.std.specs.Prelude.{◌≡◌};
    ghost use Rattle.log_lines.specs.Reading.{next_phase, incomplete};

    // Where a trace stands after one event more.
    #[tactic(auto, unfolding(crate::specs::Reading::next_phase))]
    pub fn after(self, code: u64) -> Phase
        ensures { result ≡ next_phase self code }
    {
        match (self, code) {
            (Phase::Before, 0) => Phase::Inside,
            (Phase::Inside, 1) => Phase::Complete,
            (Phase::Inside, 2..) => Phase::Inside,
            _ => Phase::Misplaced,
        }
    }

    // Whether a trace that stands so is no behaviour.
    pub fn is_misplaced(self) -> bool
        ensures { result ≡ incomplete self }
    {
        !matches!(self, Phase::Complete)
    }
}

// What the activities of a line say: where its line feed stands, whether one is of the activity
// bound or more, and whether an endpoint is misplaced.
#[derive(Clone, Copy, Drop)]
pub struct Activities {
    pub end: usize,
    pub unknown: bool,
    pub misplaced: bool,
}

// What checking a line answers where it has no fault: the index after its line feed and its case
// count.
#[derive(Clone, Copy, Drop)]
pub struct CheckedLine {
    pub next: usize,
    pub cases: u64,
}
