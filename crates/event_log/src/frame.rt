// Stepping over a trace of a log that was checked: document 01, "Settings and the log". No activity
// is checked again.
ghost use Rattle.std.specs.Prelude.{◌≡◌};
ghost use Rattle.event_log.specs.Stepping.{trace_end};

use log_lines::line::rest_from;
use log_lines::{CODE_DIGITS, LINE_FEED};

// Where the activity digits that begin at an index end. Of each two digits only the first is read,
// the one that replaying leaves out.
pub fn trace_end(text: &[u8], from: usize) -> usize
    ensures { result ≡ trace_end text.now from }
{
    let pairs = rest_from(text, from)
        .iter()
        .step_by(CODE_DIGITS)
        .take_while(|byte| **byte != LINE_FEED)
        .count();
    from + CODE_DIGITS * pairs
}
