// The calls that answer numbers alone: checking a log, replaying its first trace, judging a place.
ghost use Rattle.std.specs.Prelude.{◌≡◌};
ghost use Rattle.cases.specs.Verdicts.{verdict_name};

use crate::arguments::place_in;
use case_notation::fields::word;
use case_notation::numbers::argument;
use case_output::answer_line;
use event_log::check_log;
use event_log_spec::LogSize;
use replay::{judge_place, replay_first_trace};
use replay_spec::{Balances, FirstMissing, FirstUnderfed, Judgement, Verdict};
use std::io;
use std::io::Write;

fn size_line<W: Write>(out: &mut W, size: LogSize) -> io::Result<()> {
    writeln!(out, "  frames {} cases {}", size.frames, size.cases)
}

// check A text
pub fn check<W: Write>(out: &mut W, line: &[u8], text: &[u8]) -> Option<io::Result<()>> {
    let activities = argument(line, 1)?.try_into().ok()?;
    Some(answer_line(out, check_log(activities, text), size_line))
}

fn balances_line<W: Write>(out: &mut W, balances: Balances) -> io::Result<()> {
    let (least, last) = (balances.least, balances.last);
    write!(out, "  least {least} last {last} first missing ")?;
    match balances.first_missing {
        FirstMissing::NoEvent => writeln!(out, "nowhere"),
        FirstMissing::AtEvent { event } => writeln!(out, "at event {event}"),
    }
}

// replay A place text
pub fn replay<W: Write>(out: &mut W, line: &[u8], text: &[u8]) -> Option<io::Result<()>> {
    let activities = argument(line, 1)?.try_into().ok()?;
    let place = place_in(word(line, 2))?;
    let replayed = replay_first_trace(activities, text, place);
    Some(answer_line(out, replayed, balances_line))
}

// judge A T place text
pub fn judge<W: Write>(out: &mut W, line: &[u8], text: &[u8]) -> Option<io::Result<()>> {
    let activities = argument(line, 1)?.try_into().ok()?;
    let threshold = argument(line, 2)?.try_into().ok()?;
    let place = place_in(word(line, 3))?;
    let judged = judge_place(activities, threshold, text, place);
    Some(answer_line(out, judged, judgement_line))
}

fn verdict_name(verdict: Verdict) -> &'static str
    ensures { result.now ≡ verdict_name verdict }
{
    match verdict {
        Verdict::Fitting => "fitting",
        Verdict::Underfed => "underfed",
        Verdict::Overfed => "overfed",
        Verdict::Both => "both",
    }
}

fn judgement_line<W: Write>(out: &mut W, judgement: Judgement) -> io::Result<()> {
    let counts = judgement.counts;
    let verdict = verdict_name(judgement.verdict);
    write!(
        out,
        "  fitting {} underfed {} overfed {} both {} verdict {verdict} first missing ",
        counts.fitting, counts.underfed, counts.overfed, counts.both
    )?;
    match judgement.first_underfed {
        FirstUnderfed::NoLine => writeln!(out, "nowhere"),
        FirstUnderfed::AtLine { line, event } => writeln!(out, "at line {line} event {event}"),
    }
}
