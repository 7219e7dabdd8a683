// The first line of the input, the settings frame: document 01, "Thinning and writing", last
// paragraph.
ghost use Rattle.std.specs.Prelude.{◌≡◌};
ghost use Rattle.report_lines.specs.ProgramLines.{settings_frame_in};

use crate::{BOUND_DIGITS, SETTINGS_DIGITS};
use hex_digits::hex::read_hex;
use limits::Settings;
use log_lines::LINE_FEED;

// Where the digits of mi, mo and T begin.
const INPUTS_AT: usize = BOUND_DIGITS;

const OUTPUTS_AT: usize = 2 * BOUND_DIGITS;

const THRESHOLD_AT: usize = 3 * BOUND_DIGITS;

// The settings that an input begins with, if it does: the digits of A, mi, mo and T, and a line feed.
pub fn settings_in(input: &[u8]) -> Option<Settings>
    ensures { result ≡ settings_frame_in input.now }
{
    if input.len() <= SETTINGS_DIGITS {
        return None;
    }
    if input[SETTINGS_DIGITS] != LINE_FEED {
        return None;
    }
    Some(Settings {
        activities: read_hex(&input[..INPUTS_AT])? as u8,
        inputs: read_hex(&input[INPUTS_AT..OUTPUTS_AT])? as u8,
        outputs: read_hex(&input[OUTPUTS_AT..THRESHOLD_AT])? as u8,
        threshold: read_hex(&input[THRESHOLD_AT..SETTINGS_DIGITS])? as u16,
    })
}
