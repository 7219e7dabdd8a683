// Sets of activities and places: document 01, "Candidates and their order" and the first sentences
// of "Tokens in one trace".
#![tactic(auto)]

ghost use Rattle.std.specs.Prelude.{◌≡◌};
ghost use Rattle.places.specs.Places.{below, through, place_under, word, place_of};

pub mod list; // list.rt: lists of places by their words

// What the output activity 0 adds to the word of a place, which is I + 65,536 × O.
pub const OUTPUT_UNIT: u32 = 65536;

// A place (I, O): its input and its output activities, each as a set, the sum of 2 to the power a
// over its codes a.
#[derive(Clone, Copy, Drop)]
pub struct Place {
    pub inputs: u16,
    pub outputs: u16,
}

// Whether a set names no code of the activity bound or more.
pub fn below_bound(activities: u8, set: u16) -> bool
    ensures { result ≡ below activities set }
{
    activities >= 16 || (set >> activities) == 0
}

impl Place {
    // Whether this is a through place: it has inputs and outputs (Definition 3).
    #[tactic(auto, unfolding(crate::specs::Places::through))]
    pub fn is_through(self) -> bool
        ensures { result ≡ through self }
    {
        self.inputs != 0 && self.outputs != 0
    }

    // Whether this is a through place under an activity bound.
    #[tactic(auto, unfolding(crate::specs::Places::place_under))]
    pub fn is_under(self, activities: u8) -> bool
        ensures { result ≡ place_under activities self }
    {
        self.is_through()
            && below_bound(activities, self.inputs)
            && below_bound(activities, self.outputs)
    }
}

// The 32-bit word of a place.
impl From<Place> for u32 {
    ghost from_gives = { λ place result. result ≡ word place };

    #[tactic(auto, unfolding(crate::specs::Places::word))]
    fn from(place: Place) -> Self {
        u32::from(place.inputs) + OUTPUT_UNIT * u32::from(place.outputs)
    }
}

// The place that a list word stands for.
impl From<u32> for Place {
    ghost from_gives = { λ word result. result ≡ place_of word };

    #[tactic(auto, unfolding(crate::specs::Places::place_of))]
    fn from(word: u32) -> Self {
        Place {
            inputs: (word % OUTPUT_UNIT) as u16,
            outputs: (word / OUTPUT_UNIT) as u16,
        }
    }
}
