// The types of what replaying and judging answer: document 01, "Tokens in one trace"; document 02,
// c). The only code is the number of a verdict and the index that stands for a missing token.
#![tactic(auto)]

ghost use Rattle.std.specs.Prelude.{◌≡◌};
ghost use Rattle.replay_spec.specs.Judgement.{mark};
ghost use Rattle.replay_spec.specs.Missing.{missing_index, line_index, event_index};

// The first event of a trace at which a token is missing.
#[derive(Clone, Copy, Drop)]
pub enum FirstMissing {
    NoEvent,
    AtEvent { event: u8 },
}

impl FirstMissing {
    // The index of the event, or -1.
    #[tactic(auto, unfolding(crate::specs::Missing::missing_index))]
    pub fn index(self) -> i32
        ensures { result ≡ missing_index self }
    {
        match self {
            FirstMissing::NoEvent => -1,
            FirstMissing::AtEvent { event } => i32::from(event),
        }
    }
}

// The first line of a log that underfeeds a place, with the first event of its trace at which a
// token is missing.
#[derive(Clone, Copy, Drop)]
pub enum FirstUnderfed {
    NoLine,
    AtLine { line: u16, event: u8 },
}

impl FirstUnderfed {
    // The index of the line, or -1.
    #[tactic(auto, unfolding(crate::specs::Missing::line_index))]
    pub fn line_index(self) -> i32
        ensures { result ≡ line_index self }
    {
        match self {
            FirstUnderfed::NoLine => -1,
            FirstUnderfed::AtLine { line, .. } => i32::from(line),
        }
    }

    // The index of the event, or -1.
    #[tactic(auto, unfolding(crate::specs::Missing::event_index))]
    pub fn event_index(self) -> i32
        ensures { result ≡ event_index self }
    {
        match self {
            FirstUnderfed::NoLine => -1,
            FirstUnderfed::AtLine { event, .. } => i32::from(event),
        }
    }
}

// What replaying the first trace of a log answers: the least balance and the balance after the last
// event, the low and the end of document 01, and where the first token is missing.
#[derive(Drop)]
pub struct Balances {
    pub least: i16,
    pub last: i16,
    pub first_missing: FirstMissing,
}

// The four case counts of a place over a log: fitting, underfed only, overfed only, and both.
#[derive(Clone, Copy, Drop)]
pub struct CaseCounts {
    pub fitting: u64,
    pub underfed: u64,
    pub overfed: u64,
    pub both: u64,
}

// What a place is over a log at a threshold.
#[derive(Clone, Copy, Drop)]
pub enum Verdict {
    Fitting,
    Underfed,
    Overfed,
    Both,
}

impl Verdict {
    // The number of a verdict, 0 of fitting.
    #[tactic(auto, unfolding(crate::specs::Judgement::mark))]
    pub fn mark(self) -> u8
        ensures { result ≡ mark self }
    {
        match self {
            Verdict::Fitting => 0,
            Verdict::Underfed => 1,
            Verdict::Overfed => 2,
            Verdict::Both => 3,
        }
    }
}

// What judging a place answers: its case counts, the verdict on it, and the first line that
// underfeeds it.
#[derive(Drop)]
pub struct Judgement {
    pub counts: CaseCounts,
    pub verdict: Verdict,
    pub first_underfed: FirstUnderfed,
}
