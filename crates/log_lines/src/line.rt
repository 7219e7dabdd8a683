// One line of a log, read once from its front: its count, then its activities up to the line feed.
ghost use Rattle.std.specs.Prelude.{◌≡◌, ◌+◌, ◌≤◌, ◌<◌, length, drop, IfSome};
ghost use Rattle.event_log_spec.specs.Frames.{count_digits};
ghost use Rattle.event_log_spec.specs.Lines.{first_line};
ghost use Rattle.log_lines.specs.Reading.{count_in, activities_in, line_checked};

use crate::{
    Activities, CODE_DIGITS, COUNT_DIGITS, CheckedLine, LINE_FEED, LONGEST_LINE, MOST_FRAMES,
    Phase, SHORTEST_LINE,
};
use hex_digits::hex::read_hex;
use limits::Refusal;

// What a text holds from an index on: nothing where the index is past its end.
pub fn rest_from(text: &[u8], from: usize) -> &[u8]
    ensures { result.now ≡ drop from text.now }
{
    text.get(from..).unwrap_or(&[])
}

// The case count of the line that begins at `from`, if it begins with one.
#[tactic(auto, using(crate::proofs::laws::Counts::counts))]
pub fn count_at(text: &[u8], from: usize) -> Option<u64>
    ensures answer { result ≡ count_in (drop from text.now) }
    ensures inside { IfSome result (λ _. from + count_digits ≤ length text.now) }
{
    let digits = rest_from(text, from).first_chunk::<COUNT_DIGITS>()?;
    let cases = read_hex(digits)?;
    (cases != 0).then_some(cases)
}

// The activities of a line from the first one, which stands at `from`: none where there are not two
// digits for each, up to a line feed.
#[tactic(auto, using(crate::proofs::laws::Scan::pairs_read))]
pub fn read_activities(activities: u8, text: &[u8], from: usize) -> Option<Activities>
    ensures answer { result ≡ activities_in activities from (first_line (drop from text.now)) }
    ensures inside { IfSome result (λ read. (from ≤ read.end) × (read.end < length text.now)) }
{
    let line = rest_from(text, from);
    let mut rest = line;
    let mut phase = Phase::Before;
    let mut unknown = false;
    while let Some((pair, after)) = rest.split_first_chunk::<CODE_DIGITS>() {
        if pair[0] == LINE_FEED {
            break;
        }
        let code = read_hex(pair)?;
        phase = phase.after(code);
        unknown |= u64::from(activities) <= code;
        rest = after;
    }
    let [LINE_FEED, ..] = rest else {
        return None;
    };
    Some(Activities {
        end: from + (line.len() - rest.len()),
        unknown,
        misplaced: phase.is_misplaced(),
    })
}

// The line that begins at `from` and has the index `line`.
#[tactic(auto, using(crate::proofs::laws::LineShape::line_steps))]
pub fn check_line(
    activities: u8,
    text: &[u8],
    line: usize,
    from: usize,
) -> Result<CheckedLine, Refusal>
    ensures { result ≡ line_checked activities line from (first_line (drop from text.now)) }
{
    Refusal::TooLarge { line }.unless(line < MOST_FRAMES)?;
    let malformed = Refusal::MalformedFrame { line };
    let cases = count_at(text, from).ok_or(malformed)?;
    let read = read_activities(activities, text, from + COUNT_DIGITS).ok_or(malformed)?;
    let digits = read.end - from;
    malformed.unless(SHORTEST_LINE <= digits)?;
    Refusal::TooLarge { line }.unless(digits <= LONGEST_LINE)?;
    Refusal::UnknownActivity { line }.unless(!read.unknown)?;
    Refusal::MisplacedEndpoint { line }.unless(!read.misplaced)?;
    Ok(CheckedLine {
        next: read.end + 1,
        cases,
    })
}
