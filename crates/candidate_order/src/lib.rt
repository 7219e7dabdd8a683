// Sets and places compared, and sets stepped through in the stated order: document 01, "Candidates
// and their order".
#![tactic(auto)]

ghost use Rattle.std.specs.Prelude.{◌≡◌};
ghost use Rattle.places.specs.Places.{lighter};

use crate::set::is_within;
use places::Place;

pub mod set; // set.rt: sets of activities

// Whether a place is at least as light as another (Definition 10).
#[tactic(auto, unfolding(places::specs::Places::lighter))]
pub fn is_lighter(place: Place, than: Place) -> bool
    ensures { result ≡ lighter place than }
{
    is_within(place.inputs, than.inputs) && is_within(than.outputs, place.outputs)
}
