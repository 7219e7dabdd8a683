// The settings of a call and the refusals that every call can answer with: document 01, "Settings
// and the log".
#![tactic(auto)]

ghost use Rattle.std.specs.Prelude.{◌≡◌, ◌&&◌, true, false, not, MatchResult};
ghost use Rattle.limits.specs.Refusals.{number, value, given, answered};
ghost use Rattle.limits.specs.Settings.{bound_in_range, size_in_range, threshold_in_range, settings_in_range};

// The most activities that a 16-bit set can name.
pub const MOST_ACTIVITIES: u8 = 16;

// A, mi, mo and T of document 01. Their ranges are in specs/Settings.antt.
#[derive(Clone, Copy, Drop)]
pub struct Settings {
    // A, the activity bound: codes run from 0 to A - 1
    pub activities: u8,
    // mi, the most inputs of a place
    pub inputs: u8,
    // mo, the most outputs of a place
    pub outputs: u8,
    // T, the threshold in thousandths
    pub threshold: u16,
}

impl Settings {
    // Whether all four settings are in their ranges.
    #[tactic(auto, unfolding(crate::specs::Settings::settings_in_range))]
    pub fn are_in_range(self) -> bool
        ensures { result ≡ settings_in_range self }
    {
        bound_in_range(self.activities)
            && size_in_range(self.activities, self.inputs)
            && size_in_range(self.activities, self.outputs)
            && threshold_in_range(self.threshold)
    }
}

// Why a call is refused. Document 01's number and value of each are in specs/Refusals.antt.
#[derive(Clone, Copy, Drop)]
pub enum Refusal {
    InvalidSetting,
    MalformedFrame { line: usize },
    UnknownActivity { line: usize },
    MisplacedEndpoint { line: usize },
    TooLarge { line: usize },
    EmptyLog,
    InvalidPlace { index: usize },
    BufferTooSmall,
}

impl Refusal {
    // The check that passes where something holds, and else refuses so.
    pub fn unless(self, holds: bool) -> Result<(), Refusal>
        ensures answer { result ≡ answered (given (not holds) self) tt }
        ensures cases { MatchResult result (λ _. holds ≡ true) (λ refusal. (holds ≡ false) × (refusal ≡ self)) }
    {
        if holds { Ok(()) } else { Err(self) }
    }

    // The number of a refusal.
    #[tactic(auto, unfolding(crate::specs::Refusals::number))]
    pub fn number(self) -> u8
        ensures { result ≡ number self }
    {
        match self {
            Refusal::InvalidSetting => 1,
            Refusal::MalformedFrame { line: _ } => 2,
            Refusal::UnknownActivity { line: _ } => 3,
            Refusal::MisplacedEndpoint { line: _ } => 4,
            Refusal::TooLarge { line: _ } => 5,
            Refusal::EmptyLog => 6,
            Refusal::InvalidPlace { index: _ } => 7,
            Refusal::BufferTooSmall => 8,
        }
    }

    // What is returned beside the number.
    #[tactic(auto, unfolding(crate::specs::Refusals::value))]
    pub fn value(self) -> usize
        ensures { result ≡ value self }
    {
        match self {
            Refusal::MalformedFrame { line }
            | Refusal::UnknownActivity { line }
            | Refusal::MisplacedEndpoint { line }
            | Refusal::TooLarge { line } => line,
            Refusal::InvalidPlace { index } => index,
            Refusal::InvalidSetting | Refusal::EmptyLog | Refusal::BufferTooSmall => 0,
        }
    }
}

// Whether an activity bound is in its range.
#[tactic(auto, unfolding(crate::specs::Settings::bound_in_range))]
pub fn bound_in_range(activities: u8) -> bool
    ensures { result ≡ bound_in_range activities }
{
    (2..=MOST_ACTIVITIES).contains(&activities)
}

// Whether a threshold is in its range.
#[tactic(auto, unfolding(crate::specs::Settings::threshold_in_range))]
pub fn threshold_in_range(threshold: u16) -> bool
    ensures { result ≡ threshold_in_range threshold }
{
    threshold <= 1000
}

// Whether an activity bound and a threshold are both in their ranges.
pub fn bound_and_threshold_in_range(activities: u8, threshold: u16) -> bool
    ensures { result ≡ (bound_in_range activities && threshold_in_range threshold) }
{
    bound_in_range(activities) && threshold_in_range(threshold)
}

// Whether a bound on inputs or outputs is in its range.
#[tactic(auto, unfolding(crate::specs::Settings::size_in_range))]
pub fn size_in_range(activities: u8, size: u8) -> bool
    ensures { result ≡ size_in_range activities size }
{
    (1..=activities).contains(&size)
}
