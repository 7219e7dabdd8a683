// A run and, where it completes, the reduction of what it found: document 01, the words of demand 3.
#![tactic(auto)]

ghost use Rattle.listing.specs.Listing.{resources_of, GoesAsWritten};

use discovery::discover;
use discovery_spec::Run;
use limits::{Refusal, Settings};
use reduction::reduce;

// What a run and the reduction of its list answered.
#[derive(Drop)]
pub enum Listing {
    // the run stopped before the last candidate, so its list is not reduced
    Incomplete(Run),
    Complete {
        run: Run,
        reduced: Result<usize, Refusal>,
    },
}

// Searches the candidates for those that the log fits, and after a completed run writes what it
// found, without the redundant places, into a further buffer.
pub fn list_places(
    settings: Settings,
    text: &[u8],
    budget: u32,
    rejected: &mut [u64],
    found: &mut [u32],
    kept: &mut [u32],
) -> Result<Listing, Refusal>
    ensures { GoesAsWritten settings text.now
        (resources_of rejected.old found.old kept.old budget)
        result rejected.new found.new kept.new }
{
    let run = discover(settings, text, budget, rejected, found)?;
    if !run.end.is_completed() {
        return Ok(Listing::Incomplete(run));
    }
    let reduced = reduce(&found[..run.found], kept);
    Ok(Listing::Complete { run, reduced })
}
