// Whether a place of a list is redundant, as a union of at least two others that do not overlap:
// document 01, "Thinning and writing".
ghost use Rattle.std.specs.Prelude.{◌≡◌, true};
ghost use Rattle.limits.specs.Settings.{most_activities};
ghost use Rattle.places.specs.Places.{place_of, place_under};
ghost use Rattle.reduction_spec.specs.Cover.{Listable};
ghost use Rattle.reduction_spec.specs.Reduction.{redundant};
ghost use Rattle.exact_cover.specs.Gathering.{gathered_after};

use cover_choice::Remainder;
use exact_cover::Uncovered;

// Whether a place of a list is redundant, as a union of at least two others that do not overlap. A
// buffer is lent to the search for the words that can be parts.
pub fn is_redundant(words: &[u32], whole: u32, parts: &mut [u32]) -> bool
    requires places { Listable words.now }
    requires place { place_under most_activities (place_of whole) ≡ true }
    ensures answer { result ≡ redundant words.now whole }
    ensures buffer { parts.new ≡ gathered_after words.now whole whole parts.old }
{
    let rest = Remainder {
        words,
        whole,
        left: whole,
    };
    Uncovered { rest }.has_cover(parts)
}
