// Whether what is left of a place can be covered by places of a list, each activity once:
// document 01, "Some places and their forms". Over list words, in which inputs and outputs are one
// set of activities.
#![tactic(auto)]

ghost use Rattle.std.specs.Prelude.{◌≡◌, ◌↔◌, true, ◌-◌, ◌<◌};
ghost use Rattle.reduction_spec.specs.Cover.{Listable, usable, Cover};
ghost use Rattle.reduction_spec.proofs.laws.OneWay.{listable_prop};
ghost use Rattle.exact_cover.specs.Gathering.{gathered_after};

use crate::parts::gather;
use cover_choice::Remainder;
use places::Place;

mod parts; // parts.rt: the words that can be parts of what is left

// How many words that can be parts of what is left are copied at each step of the search.
const ROOM: usize = 256;

// Something that is left of a whole, and words of places that may be its parts.
#[derive(Clone, Copy)]
pub struct Uncovered<'a> {
    pub rest: Remainder<'a>,
    ghost places: { Listable rest.words.now } by { listable_prop rest.words.now },
    ghost some_left: { 0 < rest.left },
}

impl Uncovered<'_> {
    // Whether words other than the whole cover what is left of it. A buffer is lent for the words
    // that can be parts of it: the search goes over the words again and again, so it is given only
    // those, where the buffer takes all.
    #[cycle(cover)]
    #[tactic(auto, using(crate::proofs::laws::GatheredParts::searching))]
    pub fn has_cover(self, parts: &mut [u32]) -> bool
        ensures answer { let of = self.entry.rest in
            (result ≡ true) ↔ Cover of.words.now of.whole of.left }
        ensures buffer { let of = self.entry.rest in
            parts.new ≡ gathered_after of.words.now of.whole of.left parts.old }
    {
        match gather(self.rest, parts) {
            Some(count) => {
                let words = &parts[..count];
                let rest = Remainder { words, ..self.rest };
                Uncovered { rest }.is_covered()
            }
            None => self.is_covered(),
        }
    }

    // Whether words other than the whole cover what is left of it, each activity once. Where there is
    // a cover, one of the words that cover a chosen activity is in it: each of these is tried.
    #[cycle(cover)]
    fn is_covered(self) -> bool
        ensures { let of = self.entry.rest in
            (result ≡ true) ↔ Cover of.words.now of.whole of.left }
    {
        let Some(chosen) = self.rest.choose() else {
            return false;
        };
        let mut parts = [0u32; ROOM];
        for &word in self.rest.words {
            if (word >> chosen) % 2 == 1
                && self.rest.takes(word)
                && self.is_covered_after(word, &mut parts)
            {
                return true;
            }
        }
        false
    }

    // Whether they cover what the next part leaves, where fewer activities are uncovered.
    #[cycle(cover)]
    fn is_covered_after(self, part: u32, parts: &mut [u32]) -> bool
        requires next { usable self.rest.whole self.rest.left part ≡ true }
        requires some { 0 < part }
        ensures { let of = self.entry.rest in
            (result ≡ true) ↔ Cover of.words.now of.whole (of.left - part) }
    {
        let left = self.rest.left - part;
        if left == 0 {
            return true;
        }
        if !Place::from(left).is_through() {
            return false;
        }
        let rest = Remainder { left, ..self.rest };
        Uncovered { rest }.has_cover(parts)
    }
}
