// Which candidates the words of rejected places rule: document 01, "The walk", first two paragraphs.
#![tactic(auto)]

ghost use Rattle.std.specs.Prelude.{◌≡◌, ◌||◌, eqb};
ghost use Rattle.replay_spec.specs.Judgement.{mark};
ghost use Rattle.replay_spec.specs.declared.Verdict.TheVariants.{Both};
ghost use Rattle.discovery_spec.specs.Rejected.{mark_in, place_in, rejected_word};
ghost use Rattle.discovery_spec.specs.Rejected.{rules_underfed, rules_overfed};
ghost use Rattle.rulings.specs.Rulings.{ruling_of};

use candidate_order::is_lighter;
use discovery_spec::MARK_UNIT;
use places::Place;
use replay_spec::Verdict;

// Which way the words of rejected places rule a candidate, where they do.
#[derive(Drop)]
pub enum Ruling {
    AsUnderfed,
    AsOverfed,
}

// The word of a rejected place: its list word, and its verdict's mark above bit 31.
#[tactic(auto, unfolding(discovery_spec::specs::Rejected::rejected_word))]
pub fn rejected_word(place: Place, verdict: Verdict) -> u64
    ensures { result ≡ rejected_word place verdict }
{
    u64::from(u32::from(place)) + MARK_UNIT * u64::from(verdict.mark())
}

// The place of a word.
#[tactic(auto, unfolding(discovery_spec::specs::Rejected::place_in))]
fn place_in(word: u64) -> Place
    ensures { result ≡ place_in word }
{
    Place::from((word % MARK_UNIT) as u32)
}

// Whether a word is marked as underfed or as overfed, alone or as both.
#[tactic(auto, unfolding(discovery_spec::specs::Rejected::mark_in))]
fn is_marked(word: u64, verdict: Verdict) -> bool
    ensures { result ≡ (eqb (mark_in word) (mark verdict) || eqb (mark_in word) (mark Both)) }
{
    let mark = word / MARK_UNIT;
    mark == u64::from(verdict.mark()) || mark == u64::from(Verdict::Both.mark())
}

// Whether a word rules a candidate underfed, as one that is at least as light as its place.
#[tactic(auto, unfolding(discovery_spec::specs::Rejected::rules_underfed, replay_spec::specs::Judgement::mark))]
fn rules_underfed(word: u64, candidate: Place) -> bool
    ensures { result ≡ rules_underfed candidate word }
{
    is_marked(word, Verdict::Underfed) && is_lighter(candidate, place_in(word))
}

// Whether a word rules a candidate overfed, as one that its place is at least as light as.
#[tactic(auto, unfolding(discovery_spec::specs::Rejected::rules_overfed, replay_spec::specs::Judgement::mark))]
fn rules_overfed(word: u64, candidate: Place) -> bool
    ensures { result ≡ rules_overfed candidate word }
{
    is_marked(word, Verdict::Overfed) && is_lighter(place_in(word), candidate)
}

// Which way some words rule a candidate. One that rules it overfed decides at once.
#[tactic(auto, using(crate::proofs::laws::WordByWord::from_none))]
pub fn ruling_by(words: &[u64], candidate: Place) -> Option<Ruling>
    ensures { result ≡ ruling_of words.now candidate }
{
    let mut underfed = false;
    for word in words {
        if rules_overfed(*word, candidate) {
            return Some(Ruling::AsOverfed);
        }
        underfed |= rules_underfed(*word, candidate);
    }
    underfed.then_some(Ruling::AsUnderfed)
}
