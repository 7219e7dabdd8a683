// Replaying traces and judging places: document 01, "Tokens in one trace"; document 02, c).
#![tactic(auto)]

ghost use Rattle.std.specs.Prelude.{◌≡◌, ◌≤◌};
ghost use Rattle.limits.specs.Refusals.{Numbered, answer_number, answer_value};
ghost use Rattle.limits.specs.Settings.{bound_fault, bound_and_threshold_fault};
ghost use Rattle.places.specs.Places.{place_fault};
ghost use Rattle.event_log_spec.specs.Lines.{frames_of};
ghost use Rattle.event_log_spec.specs.Checking.{log_refusal};
ghost use Rattle.replay_spec.specs.Answers.{replayed, judgement, judged};
ghost use Rattle.replay_spec.specs.Judgement.{case_counts, verdict};
ghost use Rattle.replay.specs.Replaying.{place_and_text_checked};

use crate::judgement::{count_cases, verdict_on};
use crate::missing::first_underfed;
use event_log::check_text;
use event_log::index::{IndexedFrame, IndexedLog, first_digits, index_log};
use event_log_spec::LogSize;
use limits::{Refusal, bound_and_threshold_in_range, bound_in_range};
use log_lines::MOST_FRAMES;
use places::Place;
use replay_spec::{Balances, CaseCounts, Judgement, Verdict};
use token_replay::missing::first_missing;
use token_replay::{DigitSets, replay_trace};

mod judgement; // judgement.rt: the case counts of a place and the verdict on it
mod missing; // missing.rt: the first line that underfeeds a place

// Checks the place and the text of a call whose settings have passed their check, which comes
// before these.
#[tactic(auto, using(crate::proofs::laws::Arguments::argument_steps))]
fn check_place_and_text(activities: u8, text: &[u8], place: Place) -> Result<LogSize, Refusal>
    ensures { result ≡ place_and_text_checked activities text.now place }
{
    Refusal::InvalidPlace { index: 0 }.unless(place.is_under(activities))?;
    check_text(activities, text)
}

// Replays the first trace of a log on a place. The whole log is checked.
#[tactic(auto, using(crate::proofs::laws::Arguments::replay_steps))]
pub fn replay_first_trace(activities: u8, text: &[u8], place: Place) -> Result<Balances, Refusal>
    ensures answer { result ≡ replayed activities text.now place }
    ensures numbered { Numbered (log_refusal (bound_fault activities) (place_fault activities 0 place) activities text.now)
        (answer_number result) (answer_value result) }
{
    Refusal::InvalidSetting.unless(bound_in_range(activities))?;
    check_place_and_text(activities, text, place)?;
    let digits = first_digits(text);
    let sets = DigitSets::from(place);
    let tokens = replay_trace(digits, sets);
    Ok(Balances {
        least: tokens.least,
        last: tokens.balance,
        first_missing: first_missing(digits, sets),
    })
}

// The four case counts of a place over all frames of a log that was accepted and indexed: nothing
// is checked or looked for again.
fn count_all(log: &IndexedLog, place: Place) -> CaseCounts
    ensures { result ≡ case_counts place (frames_of log.now.text.now) }
{
    count_cases(log, 0, log.len(), place)
}

// The verdict alone, as the search needs it.
pub fn verdict_over(threshold: u16, log: &IndexedLog, place: Place) -> Verdict
    requires { threshold ≤ 1000 }
    ensures { result ≡ verdict threshold (frames_of log.now.text.now) place }
{
    verdict_on(threshold, count_all(log, place))
}

// All that judging answers of such a log.
fn judge(threshold: u16, log: &IndexedLog, place: Place) -> Judgement
    requires { threshold ≤ 1000 }
    ensures { result ≡ judgement threshold (frames_of log.now.text.now) place }
{
    let counts = count_all(log, place);
    Judgement {
        counts,
        verdict: verdict_on(threshold, counts),
        first_underfed: first_underfed(log, place, counts),
    }
}

// Judges a place over a log at a threshold.
#[tactic(auto, using(crate::proofs::laws::Arguments::judge_steps))]
pub fn judge_place(
    activities: u8,
    threshold: u16,
    text: &[u8],
    place: Place,
) -> Result<Judgement, Refusal>
    ensures answer { result ≡ judged activities threshold text.now place }
    ensures numbered { Numbered
        (log_refusal (bound_and_threshold_fault activities threshold) (place_fault activities 0 place) activities text.now)
        (answer_number result) (answer_value result) }
{
    Refusal::InvalidSetting.unless(bound_and_threshold_in_range(activities, threshold))?;
    check_place_and_text(activities, text, place)?;
    let mut buffer = [IndexedFrame::default(); MOST_FRAMES];
    let log = index_log(text, &mut buffer);
    Ok(judge(threshold, &log, place))
}
