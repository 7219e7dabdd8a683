// Judging a place over the frames of a log that was checked: document 01, "Tokens in one trace",
// second paragraph.
ghost use Rattle.std.specs.Prelude.{◌≡◌, ◌+◌, ◌^◌, ◌≤◌, ◌<◌, length, get_or};
ghost use Rattle.event_log_spec.specs.Lines.{frames_of, frames_between};
ghost use Rattle.replay_spec.specs.Judgement.{case_counts, cases_of, exceeds, verdict_where, verdict_of, mark};
ghost use Rattle.replay.specs.Replaying.{verdicts, kind_of, with_cases};

use event_log::index::IndexedLog;
use places::Place;
use replay_spec::{CaseCounts, Verdict};
use token_replay::{DigitSets, Tokens, replay_trace};

// How many verdicts there are, and counts of cases: one for each.
const VERDICTS: usize = 4;

// The number of the verdict that two tests give, without a branch: how traces go cannot be foretold.
#[tactic(auto, unfolding(replay_spec::specs::Judgement::mark))]
fn verdict_number(underfed: bool, overfed: bool) -> usize
    ensures { (result ≡ mark (verdict_where underfed overfed)) × (result < verdicts) }
{
    usize::from(underfed) + 2 * usize::from(overfed)
}

// Adds the cases of one more trace to one of the four counts, by the signs of its least and its last
// balance.
fn add_cases(counts: &mut [u64; VERDICTS], tokens: Tokens, cases: u64)
    requires { get_or counts.old (kind_of tokens) 0 + cases < 2 ^ 64 }
    ensures { counts.new ≡ with_cases counts.old tokens cases }
{
    let underfed = tokens.least < 0;
    let overfed = tokens.balance > 0;
    let kind = verdict_number(underfed, overfed);
    counts[kind] += cases;
}

// The four case counts of a place over the frames of a log, from one line on up to another.
pub fn count_cases(log: &IndexedLog, from: usize, to: usize, place: Place) -> CaseCounts
    requires { to ≤ length (frames_of log.now.text.now) }
    ensures { result ≡ case_counts place (frames_between from to log.now.text.now) }
{
    let sets = DigitSets::from(place);
    let mut counts = [0u64; VERDICTS];
    // a range that ends before it begins has no frames, and may begin beyond the log
    let mut start = log.digits_start(from.min(to));
    for frame in from..to {
        let tokens = replay_trace(log.digits(frame, start), sets);
        add_cases(&mut counts, tokens, log.cases(frame));
        start = log.next_start(frame);
    }
    let [fitting, underfed, overfed, both] = counts;
    CaseCounts {
        fitting,
        underfed,
        overfed,
        both,
    }
}

// Whether the share of some cases in all of them is above a threshold in thousandths.
#[tactic(auto, unfolding(replay_spec::specs::Judgement::exceeds))]
fn share_exceeds(threshold: u16, total: u64, cases: u64) -> bool
    requires { (threshold ≤ 1000) × (cases ≤ total) × (total < 2 ^ 54) }
    ensures { result ≡ exceeds threshold total cases }
{
    u64::from(threshold) * total < 1000 * cases
}

// The verdict on a place from its four case counts, which add up to all cases.
#[tactic(auto, unfolding(replay_spec::specs::Judgement::verdict_of, replay_spec::specs::Judgement::underfed_cases, replay_spec::specs::Judgement::overfed_cases))]
pub fn verdict_on(threshold: u16, counts: CaseCounts) -> Verdict
    requires { (threshold ≤ 1000) × (cases_of counts < 2 ^ 54) }
    ensures { result ≡ verdict_of threshold (cases_of counts) counts }
{
    let total = counts.fitting + counts.underfed + counts.overfed + counts.both;
    let underfed = share_exceeds(threshold, total, counts.underfed + counts.both);
    let overfed = share_exceeds(threshold, total, counts.overfed + counts.both);
    match (underfed, overfed) {
        (true, true) => Verdict::Both,
        (true, false) => Verdict::Underfed,
        (false, true) => Verdict::Overfed,
        (false, false) => Verdict::Fitting,
    }
}
