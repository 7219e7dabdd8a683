// Which activity the search for a cover takes up next: one that the fewest words can cover.
#![tactic(auto)]

ghost use Rattle.std.specs.Prelude.{ℕ, ◌≡◌, ◌≤◌, ◌<◌, ◌^◌};
ghost use Rattle.places.specs.Sets.{has};
ghost use Rattle.reduction_spec.specs.Cover.{usable, many_inputs, few_inputs, balanced};
ghost use Rattle.cover_choice.specs.Choosing.{Tallied, Growable, Grown, Counts, Fewest, Chosen};

use places::Place;

// How many activities a word can have: 16 inputs and 16 outputs.
const WORD_ACTIVITIES: u32 = 32;

// What the words that can be the next part of a cover say of the activities that are left.
#[derive(Drop)]
struct Tally {
    // the activities that at least one of the words has
    once: u32,
    // those that at least two have
    twice: u32,
    // those that at least three have
    thrice: u32,
}

// What is left of a whole, and the words that may be its parts.
#[derive(Clone, Copy)]
pub struct Remainder<'a> {
    pub words: &'a [u32],
    pub whole: u32,
    pub left: u32,
}

impl Remainder<'_> {
    // Whether a word can be the next part.
    #[tactic(auto, unfolding(reduction_spec::specs::Cover::usable))]
    pub fn takes(self, word: u32) -> bool
        ensures { result ≡ usable self.entry.whole self.entry.left word }
    {
        word & self.left == word && word != self.whole
    }

    // How many of the words that can be the next part have an activity, told apart up to three.
    #[tactic(auto, using(crate::proofs::laws::Tallying::tallying))]
    fn tally(self) -> Tally
        ensures { Tallied self.entry.words.now self.entry.whole self.entry.left result }
    {
        let mut once = 0;
        let mut twice = 0;
        let mut thrice = 0;
        for &word in self.words {
            if self.takes(word) {
                thrice |= twice & word;
                twice |= once & word;
                once |= word;
            }
        }
        Tally {
            once,
            twice,
            thrice,
        }
    }

    // Whether the words that can be the next part are not all poorer in inputs for their outputs
    // than what is left, and not all richer. Words that are all of one kind make it up in no way,
    // which else is seen only after every way was tried.
    fn is_balanced(self) -> bool
        ensures { result ≡ balanced self.entry.words.now self.entry.whole self.entry.left }
    {
        self.words.iter().any(|&word| self.takes(word) && has_as_many_inputs(word, self.left))
            && self.words.iter().any(|&word| self.takes(word)
                && has_as_many_inputs(self.left, word))
    }

    // For each activity, how many words can be the next part and cover it.
    #[tactic(auto, using(crate::proofs::laws::CountingChoices::counting))]
    fn count_choices(self) -> [usize; WORD_ACTIVITIES as usize]
        ensures { Counts self.entry.words.now self.entry.whole self.entry.left result }
    {
        let mut counts = [0usize; WORD_ACTIVITIES as usize];
        for &word in self.words {
            if self.takes(word) {
                count_word(word, &mut counts);
            }
        }
        counts
    }

    // An activity that the fewest words can cover.
    #[tactic(auto, using(crate::proofs::laws::Rarity::all_sought))]
    fn rarest(self) -> u32
        requires { 0 < self.left }
        ensures { Fewest self.entry.words.now self.entry.whole self.entry.left result }
    {
        let counts = self.count_choices();
        let mut rarest = highest(self.left);
        let mut fewest = counts[rarest as usize];
        for activity in 0..WORD_ACTIVITIES {
            let count = counts[activity as usize];
            if (self.left >> activity) % 2 == 1 && count < fewest {
                rarest = activity;
                fewest = count;
            }
        }
        rarest
    }

    // The activity to cover next, by the tally where it tells. There is none, and no cover, where
    // no word can cover some activity, and where every activity has a choice of three or more but
    // the words are not balanced.
    pub fn choose(self) -> Option<u32>
        requires { 0 < self.left }
        ensures { Chosen self.entry.words.now self.entry.whole self.entry.left result }
    {
        let tally = self.tally();
        if tally.once != self.left {
            return None;
        }
        if tally.twice != self.left {
            return Some(highest(self.left - tally.twice));
        }
        if tally.thrice != self.left {
            return Some(highest(self.left - tally.thrice));
        }
        if !self.is_balanced() {
            return None;
        }
        Some(self.rarest())
    }
}

// Whether a word has at least as many inputs for each output as another, which then has at most as
// many as the word.
#[tactic(auto, unfolding(places::specs::Places::place_of, reduction_spec::specs::Cover::many_inputs, reduction_spec::specs::Cover::few_inputs))]
fn has_as_many_inputs(word: u32, other: u32) -> bool
    ensures many { result ≡ many_inputs other word }
    ensures few { result ≡ few_inputs word other }
{
    let place = Place::from(word);
    let other = Place::from(other);
    other.inputs.count_ones() * place.outputs.count_ones()
        <= place.inputs.count_ones() * other.outputs.count_ones()
}

// The highest activity of a word.
#[tactic(auto, using(crate::proofs::laws::HighestBit::highest_bit))]
fn highest(word: u32) -> u32
    requires { 0 < word }
    ensures known { result < WORD_ACTIVITIES }
    ensures part { 2 ^ result ≤ word }
    ensures has { has word result ≡ 1 }
    ensures none_above { (activity : ℕ) → result < activity → has word activity ≡ 0 }
{
    word.ilog2()
}

// Counts each activity of a word once more.
fn count_word(word: u32, counts: &mut [usize; WORD_ACTIVITIES as usize])
    requires { Growable counts.old }
    ensures { Grown word counts.old counts.new }
{
    let mut rest = word;
    while rest != 0 {
        let activity = highest(rest);
        counts[activity as usize] += 1;
        rest -= 1 << activity;
    }
}
