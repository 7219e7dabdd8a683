// Case logs: document 01, "Settings and the log".
#![tactic(auto)]

ghost use Rattle.std.specs.Prelude.{◌≡◌, None};
ghost use Rattle.limits.specs.Refusals.{Numbered, answer_number, answer_value};
ghost use Rattle.limits.specs.Settings.{bound_fault};
ghost use Rattle.event_log_spec.specs.Checking.{log_refusal, checked};
ghost use Rattle.event_log.specs.Pass.{text_checked, lines_checked};

use event_log_spec::LogSize;
use limits::{Refusal, bound_in_range};
use log_lines::line::check_line;

mod frame; // frame.rt: stepping over a trace of a checked log
pub mod index; // index.rt: the index of a log's frames

// Every line of a text, in one pass.
#[tactic(auto, using(crate::proofs::laws::LogPass::lines_passed))]
fn check_lines(activities: u8, text: &[u8]) -> Result<LogSize, Refusal>
    ensures { result ≡ lines_checked activities text.now }
{
    let mut at = 0;
    let mut size = LogSize {
        frames: 0,
        cases: 0,
    };
    while at < text.len() {
        let line = check_line(activities, text, size.frames, at)?;
        at = line.next;
        size.frames += 1;
        size.cases += line.cases;
    }
    Ok(size)
}

// Checks a text for a call whose settings and places have passed their checks, which come before
// those of the text.
#[tactic(auto, using(crate::proofs::laws::LogPass::text_steps))]
pub fn check_text(activities: u8, text: &[u8]) -> Result<LogSize, Refusal>
    ensures { result ≡ text_checked activities text.now }
{
    Refusal::EmptyLog.unless(!text.is_empty())?;
    check_lines(activities, text)
}

// Checks a log under an activity bound.
#[tactic(auto, using(crate::proofs::laws::LogPass::log_steps))]
pub fn check_log(activities: u8, text: &[u8]) -> Result<LogSize, Refusal>
    ensures answer { result ≡ checked activities text.now }
    ensures numbered { Numbered (log_refusal (bound_fault activities) None activities text.now)
        (answer_number result) (answer_value result) }
{
    Refusal::InvalidSetting.unless(bound_in_range(activities))?;
    check_text(activities, text)
}
