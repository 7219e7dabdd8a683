// What the search over candidates answers: document 01, "The walk". The search itself is defined in
// specs/, and its code is in `discovery`. The only code here is what an end says.
#![tactic(auto)]

ghost use Rattle.std.specs.Prelude.{◌≡◌};
ghost use Rattle.discovery_spec.specs.Search.{end_number, is_completed};

// What the mark of a rejected place counts for in its word: 2 to the power 32.
pub const MARK_UNIT: u64 = 4294967296;

// How a run ended: after the last candidate, with its replay budget spent, or with its list of
// found places full.
#[derive(Clone, Copy, Drop)]
pub enum End {
    Completed,
    BudgetSpent,
    ListFull,
}

impl End {
    // The number of an end, 0 of a run that completed.
    #[tactic(auto, unfolding(crate::specs::Search::end_number))]
    pub fn number(self) -> u64
        ensures { result ≡ end_number self }
    {
        match self {
            End::Completed => 0,
            End::BudgetSpent => 1,
            End::ListFull => 2,
        }
    }

    // Whether the last candidate had its turn.
    #[tactic(auto, unfolding(crate::specs::Search::is_completed))]
    pub fn is_completed(self) -> bool
        ensures { result ≡ is_completed self }
    {
        matches!(self, End::Completed)
    }
}

// What a run answers: how it ended, how many words it found and rejected, and how many candidates
// it replayed and visited.
#[derive(Drop)]
pub struct Run {
    pub end: End,
    pub found: usize,
    pub rejected: usize,
    pub replays: u32,
    pub visits: u32,
}
