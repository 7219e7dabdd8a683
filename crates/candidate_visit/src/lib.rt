// One candidate in its turn: document 01, "The walk", the list of what happens to a candidate.
#![tactic(auto)]

ghost use Rattle.std.specs.Prelude.{◌≡◌, ℕ, ◌+◌, ◌≤◌, ◌<◌, ◌^◌, None, length, take};

use discovery_spec::End;
use event_log::index::IndexedLog;
use limits::Settings;
use places::Place;
use replay::verdict_over;
use replay_spec::Verdict;
use rulings::{Ruling, rejected_word, ruling_by};

// What a search is given and leaves as it is: its settings, the log with its index, and the budget
// of replays.
#[derive(Drop)]
pub struct Search<'a> {
    pub settings: Settings,
    pub log: IndexedLog<'a>,
    pub budget: u32,
    pub ghost small_threshold: { settings.threshold ≤ 1000 },
}

// A run under way: the buffers that it was lent for the words of the places that it rejects and
// finds, how many words it wrote from the front of each, and how many candidates it replayed and
// visited.
#[derive(Drop)]
pub struct RunState<'a> {
    pub rejected: &'a mut [u64],
    pub found: &'a mut [u32],
    pub rejected_count: usize,
    pub found_count: usize,
    pub replays: u32,
    pub visits: u32,
    pub ghost rejected_there: { rejected_count ≤ length rejected.now },
    pub ghost found_there: { found_count ≤ length found.now },
}

// What a candidate's turn says of its descendants.
#[derive(Clone, Copy, Drop)]
pub enum Descendants {
    Searched,
    Pruned,
}

impl RunState<'_> {
    ghost use Rattle.event_log_spec.specs.Lines.{frames_of};
    ghost use Rattle.replay_spec.specs.Judgement.{verdict};
    ghost use Rattle.rulings.specs.Rulings.{ruling_of};
    ghost use Rattle.discovery_spec.specs.Search.{accept, reject, replay, visit};
    ghost use Rattle.candidate_visit.specs.Standing.{state_in, room_in, Turns};

    // The words of the places rejected so far.
    fn rejected_words(&self) -> &[u64]
        ensures { result.now ≡ take self.now.rejected_count self.now.rejected.now }
    {
        &self.rejected[..self.rejected_count]
    }

    // A fitting candidate is found where there is room for its word, and else stops the run.
    fn accept(&mut self, candidate: Place) -> Result<Descendants, End>
        requires { ruling_of (state_in self.old).rejected candidate ≡ None }
        ensures { (budget : ℕ) → Turns
            (accept (room_in self.old budget) candidate (state_in self.old))
            self.old result self.new }
    {
        if self.found.len() <= self.found_count {
            return Err(End::ListFull);
        }
        self.found[self.found_count] = u32::from(candidate);
        self.found_count += 1;
        Ok(Descendants::Searched)
    }

    // The word of another candidate goes where there is room among the rejected. Only a word that
    // was kept can prune, and then by its own mark.
    fn reject(&mut self, candidate: Place, verdict: Verdict) -> Descendants
        requires { ruling_of (state_in self.old).rejected candidate ≡ None }
        ensures { (budget : ℕ) → Turns
            (reject (room_in self.old budget) verdict candidate (state_in self.old))
            self.old (Ok result) self.new }
    {
        if self.rejected.len() <= self.rejected_count {
            return Descendants::Searched;
        }
        self.rejected[self.rejected_count] = rejected_word(candidate, verdict);
        self.rejected_count += 1;
        match verdict {
            Verdict::Overfed | Verdict::Both => Descendants::Pruned,
            Verdict::Fitting | Verdict::Underfed => Descendants::Searched,
        }
    }

    // A candidate that no word rules: with the budget spent the run stops, and else it is visited
    // and replayed.
    fn replay(&mut self, search: &Search, candidate: Place) -> Result<Descendants, End>
        requires unruled { ruling_of (state_in self.old).rejected candidate ≡ None }
        requires countable { self.old.visits + 1 < 2 ^ 32 }
        ensures { let s = search.now in
            let verdict = verdict s.settings.threshold (frames_of s.log.text.now) in
            Turns (replay verdict (room_in self.old s.budget) candidate (state_in self.old))
            self.old result self.new }
    {
        if search.budget <= self.replays {
            return Err(End::BudgetSpent);
        }
        self.visits += 1;
        self.replays += 1;
        match verdict_over(search.settings.threshold, &search.log, candidate) {
            Verdict::Fitting => self.accept(candidate),
            verdict => Ok(self.reject(candidate, verdict)),
        }
    }

    // One candidate that is not pruned: where a word rules it, it is visited and skipped.
    pub fn visit(&mut self, search: &Search, candidate: Place) -> Result<Descendants, End>
        requires { self.old.visits + 1 < 2 ^ 32 }
        ensures { let s = search.now in
            let verdict = verdict s.settings.threshold (frames_of s.log.text.now) in
            Turns (visit verdict (room_in self.old s.budget) candidate (state_in self.old))
            self.old result self.new }
    {
        match ruling_by(self.rejected_words(), candidate) {
            Some(Ruling::AsOverfed) => {
                self.visits += 1;
                Ok(Descendants::Pruned)
            }
            Some(Ruling::AsUnderfed) => {
                self.visits += 1;
                Ok(Descendants::Searched)
            }
            None => self.replay(search, candidate),
        }
    }
}
