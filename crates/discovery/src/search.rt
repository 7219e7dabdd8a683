// The candidates one after the other: document 01, "The walk". A loop over output sets around one
// over input sets.
ghost use Rattle.std.specs.Prelude.{◌≡◌, true, ◌+◌, ◌≤◌, ◌<◌, ◌^◌, length};
ghost use Rattle.limits.specs.Settings.{most_activities};
ghost use Rattle.places.specs.Candidates.{candidate_set, sets};
ghost use Rattle.places.specs.Succession.{from, with_outputs, candidates_from};
ghost use Rattle.discovery.specs.Searching.{Searchable, next_set, carried_on, Carries};

use candidate_order::set::{set_after, set_past};
use candidate_visit::{Descendants, RunState, Search};
use discovery_spec::End;
use limits::Settings;
use places::Place;

// The input set whose turn comes after a given one: the next one, or where its descendants are
// pruned the next one past them.
fn next_inputs(settings: Settings, inputs: u16, descendants: Descendants) -> u16
    requires { (settings.activities ≤ most_activities)
        × (candidate_set settings.activities settings.inputs inputs ≡ true) }
    ensures { result ≡ next_set descendants inputs (sets settings.activities settings.inputs) }
{
    match descendants {
        Descendants::Searched => set_after(settings.activities, settings.inputs, inputs),
        Descendants::Pruned => set_past(settings.activities, inputs),
    }
}

// The candidates with the outputs of a given one, from that one on.
fn search_inputs(search: &Search, run: &mut RunState, candidate: Place) -> Result<(), End>
    requires settings { Searchable search.now.settings }
    requires inputs { let s = search.now.settings in
        candidate_set s.activities s.inputs candidate.inputs ≡ true }
    requires countable { let s = search.now.settings in
        run.old.visits + length (from candidate.inputs (sets s.activities s.inputs)) < 2 ^ 32 }
    ensures { let s = search.now.settings in
        let inputs = from candidate.inputs (sets s.activities s.inputs) in
        Carries (carried_on search.now run.old (with_outputs inputs candidate.outputs))
        run.old result run.new }
{
    let outputs = candidate.outputs;
    let mut inputs = candidate.inputs;
    while inputs != 0 {
        let descendants = run.visit(search, Place { inputs, outputs })?;
        inputs = next_inputs(search.settings, inputs, descendants);
    }
    Ok(())
}

// The candidates from a given one on.
pub fn search_from(search: &Search, run: &mut RunState, candidate: Place) -> Result<(), End>
    requires settings { Searchable search.now.settings }
    requires inputs { let s = search.now.settings in
        candidate_set s.activities s.inputs candidate.inputs ≡ true }
    requires outputs { let s = search.now.settings in
        candidate_set s.activities s.outputs candidate.outputs ≡ true }
    requires countable { run.old.visits
        + length (candidates_from search.now.settings candidate) < 2 ^ 32 }
    ensures carried { Carries
        (carried_on search.now run.old (candidates_from search.now.settings candidate))
        run.old result run.new }
    ensures same_rejected { run.new.rejected.ghost_name ≡ run.old.rejected.ghost_name }
    ensures same_found { run.new.found.ghost_name ≡ run.old.found.ghost_name }
{
    let settings = search.settings;
    let mut inputs = candidate.inputs;
    let mut outputs = candidate.outputs;
    while outputs != 0 {
        search_inputs(search, run, Place { inputs, outputs })?;
        inputs = 1;
        outputs = set_after(settings.activities, settings.outputs, outputs);
    }
    Ok(())
}
