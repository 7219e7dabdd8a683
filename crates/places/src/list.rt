// Lists of places by their words: document 01, refusals 7 and 8 of a call that takes a list and no
// settings.
ghost use Rattle.std.specs.Prelude.{◌≡◌, not, length, ltb};
ghost use Rattle.std.specs.List.{position};
ghost use Rattle.limits.specs.Refusals.{answered};
ghost use Rattle.limits.specs.Settings.{most_activities};
ghost use Rattle.places.specs.Places.{place_of, place_under, words_refusal};

use crate::Place;
use limits::{MOST_ACTIVITIES, Refusal};

// Whether a word stands for no place.
fn is_invalid(word: u32) -> bool
    ensures { result ≡ not (place_under most_activities (place_of word)) }
{
    !Place::from(word).is_under(MOST_ACTIVITIES)
}

// The index of the first word that stands for no place.
pub fn first_invalid(words: &[u32]) -> Option<usize>
    ensures { result ≡ position (λ w. not (place_under most_activities (place_of w))) words.now }
{
    words.iter().position(|&word| is_invalid(word))
}

// The checks of a list, and of the buffer that a call is lent with it, which has room for so many
// words.
#[tactic(auto, using(crate::proofs::laws::ListFaults::list_checks))]
pub fn check_words(words: &[u32], room: usize) -> Result<(), Refusal>
    ensures { result ≡ answered (words_refusal words.now (ltb room (length words.now))) tt }
{
    if let Some(index) = first_invalid(words) {
        return Err(Refusal::InvalidPlace { index });
    }
    Refusal::BufferTooSmall.unless(words.len() <= room)
}
