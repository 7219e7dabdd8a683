// How often each activity occurs in a trace, and the word that a frame is sorted by.
ghost use Rattle.std.specs.Prelude.{◌≡◌, ◌*◌, ◌≤◌, ◌<◌, length, true};
ghost use Rattle.std.specs.List.{list_all};
ghost use Rattle.hex_digits.specs.Digits.{is_digit};
ghost use Rattle.event_log_spec.specs.Frames.{most_events};
ghost use Rattle.variants_spec.specs.Variants.{tally};
ghost use Rattle.event_log_spec.specs.Lines.{codes_in};
ghost use Rattle.variants.specs.Words.{line_room, frame_word};

use crate::words::LINE_ROOM;
use hex_digits::hex::digit_value;
use limits::MOST_ACTIVITIES;
use log_lines::CODE_DIGITS;

// How many activities a log can name.
const ACTIVITIES: usize = MOST_ACTIVITIES as usize;

// The counts of all activities, by their codes: the Parikh vector of a trace.
#[derive(Clone, Copy, Drop)]
pub struct Tally {
    pub counts: [u8; ACTIVITIES],
}

impl Tally {
    // The tally of a trace, from its digits, two for each activity. Codes are below 16, so the
    // second digit is the code.
    #[tactic(auto, using(crate::proofs::laws::Tallying::none_tallied, hex_digits::proofs::laws::DigitLaws::value_small))]
    pub fn of(digits: &[u8]) -> Self
        requires { (length digits.now ≤ 2 * most_events) × (list_all is_digit digits.now ≡ true) }
        ensures { result.counts ≡ tally (codes_in digits.now) }
    {
        let mut counts = [0; ACTIVITIES];
        for pair in digits.chunks_exact(CODE_DIGITS) {
            counts[usize::from(digit_value(pair[1]))] += 1;
        }
        Tally { counts }
    }

    // The word of a frame by its tally and its line, which takes the place of the counts of 0 and 1:
    // these occur once in every trace.
    pub fn word(self, line: usize) -> u128
        requires { line < line_room }
        ensures { result ≡ frame_word self.counts line }
    {
        u128::from_le_bytes(self.counts) / LINE_ROOM * LINE_ROOM + line as u128
    }
}
