// Replaying one trace token by token: document 01, "Tokens in one trace", first paragraph.
#![tactic(auto)]

ghost use Rattle.std.specs.Prelude.{◌≡◌, ◌*◌, ◌≤◌, length, true};
ghost use Rattle.std.specs.Int.Signed.{mag};
ghost use Rattle.std.specs.List.{list_all};
ghost use Rattle.hex_digits.specs.Digits.{is_digit};
ghost use Rattle.places.specs.declared.Place.{Place};
ghost use Rattle.event_log_spec.specs.Frames.{most_events};
ghost use Rattle.event_log_spec.specs.Lines.{codes_in};
ghost use Rattle.token_replay.specs.Tokens.{by_digit, digit_sets, after_digit, after_trace};

use places::Place;

pub mod missing; // missing.rt: the first event at which a token is missing

// A set of codes as a set of digits, each by the last five bits of its byte: of 0 to 9 these are 16
// to 25, and of A to F 1 to 6.
fn by_digit(set: u16) -> u32
    ensures { result ≡ by_digit set }
{
    u32::from(set % 1024) * 65536 + u32::from(set / 1024) * 2
}

// The two sets of a place as sets of digits in place of codes, so that a digit need not be decoded
// to look it up.
#[derive(Clone, Copy, Drop)]
pub struct DigitSets {
    pub inputs: u32,
    pub outputs: u32,
}

impl From<Place> for DigitSets {
    ghost from_gives = { λ place result. result ≡ digit_sets place };

    fn from(place: Place) -> Self {
        DigitSets {
            inputs: by_digit(place.inputs),
            outputs: by_digit(place.outputs),
        }
    }
}

// The token balance after the events so far, and the least balance at any of them, 0 before the
// first: the low of document 01 at the end.
#[derive(Clone, Copy, Drop)]
pub struct Tokens {
    pub balance: i16,
    pub least: i16,
}

impl Tokens {
    // The tokens after one more event: it takes before it gives, so that an activity in both sets
    // does not feed itself.
    fn after(self, sets: DigitSets, digit: u8) -> Tokens
        requires { mag self.balance ≤ 2 * most_events }
        ensures { result ≡ after_digit sets self digit }
    {
        let bit = digit % 32;
        let taken = self.balance - ((sets.outputs >> bit) % 2) as i16;
        let least = self.least.min(taken);
        let balance = taken + ((sets.inputs >> bit) % 2) as i16;
        Tokens { balance, least }
    }
}

// The tokens after a trace, from its digits, two for each activity. Codes are below 16, so the
// second digit is the code. All events are replayed, also after a token was missing.
pub fn replay_trace(digits: &[u8], sets: DigitSets) -> Tokens
    requires { (length digits.now ≤ 2 * most_events) × (list_all is_digit digits.now ≡ true) }
    ensures { (place : Place) → sets ≡ digit_sets place → result ≡ after_trace place (codes_in digits.now) }
{
    let mut tokens = Tokens {
        balance: 0,
        least: 0,
    };
    for pair in digits.chunks_exact(2) {
        tokens = tokens.after(sets, pair[1]);
    }
    tokens
}
