// Where the first token of a trace is missing: document 02, c).
ghost use Rattle.std.specs.Prelude.{◌≡◌, ◌*◌, ◌≤◌, length, true};
ghost use Rattle.std.specs.List.{list_all};
ghost use Rattle.hex_digits.specs.Digits.{is_digit};
ghost use Rattle.places.specs.declared.Place.{Place};
ghost use Rattle.event_log_spec.specs.Frames.{most_events};
ghost use Rattle.event_log_spec.specs.Lines.{codes_in};
ghost use Rattle.replay_spec.specs.Missing.{first_missing};
ghost use Rattle.token_replay.specs.Tokens.{digit_sets};

use crate::{DigitSets, Tokens};
use replay_spec::FirstMissing;

// The first event of a trace at which a token is missing, from its digits. No event behind it is
// replayed.
pub fn first_missing(digits: &[u8], sets: DigitSets) -> FirstMissing
    requires { (length digits.now ≤ 2 * most_events) × (list_all is_digit digits.now ≡ true) }
    ensures { (place : Place) → sets ≡ digit_sets place → result ≡ first_missing place (codes_in digits.now) }
{
    let mut tokens = Tokens {
        balance: 0,
        least: 0,
    };
    let mut event = 0;
    for pair in digits.chunks_exact(2) {
        tokens = tokens.after(sets, pair[1]);
        if tokens.least < 0 {
            return FirstMissing::AtEvent { event };
        }
        event += 1;
    }
    FirstMissing::NoEvent
}
