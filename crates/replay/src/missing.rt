// The first line of a log that underfeeds a place: document 02, c).
ghost use Rattle.std.specs.Prelude.{◌≡◌};
ghost use Rattle.event_log_spec.specs.Lines.{frames_of};
ghost use Rattle.replay_spec.specs.Judgement.{case_counts};
ghost use Rattle.replay_spec.specs.Missing.{first_underfed};

use event_log::index::IndexedLog;
use places::Place;
use replay_spec::{CaseCounts, FirstMissing, FirstUnderfed};
use token_replay::DigitSets;
use token_replay::missing::first_missing;

// The first line that underfeeds a place, with the first event of its trace at which a token is
// missing. No line behind it is replayed.
fn find_underfed(log: &IndexedLog, place: Place) -> FirstUnderfed
    ensures { result ≡ first_underfed place (frames_of log.now.text.now) }
{
    let sets = DigitSets::from(place);
    let mut start = log.digits_start(0);
    for line in 0..log.len() {
        let missing = first_missing(log.digits(line, start), sets);
        if let FirstMissing::AtEvent { event } = missing {
            let line = line as u16;
            return FirstUnderfed::AtLine { line, event };
        }
        start = log.next_start(line);
    }
    FirstUnderfed::NoLine
}

// The same from the case counts over the log: where no case is underfed, no line is looked for.
pub fn first_underfed(log: &IndexedLog, place: Place, counts: CaseCounts) -> FirstUnderfed
    requires { counts ≡ case_counts place (frames_of log.now.text.now) }
    ensures { result ≡ first_underfed place (frames_of log.now.text.now) }
{
    if counts.underfed + counts.both == 0 {
        FirstUnderfed::NoLine
    } else {
        find_underfed(log, place)
    }
}
