// Demand 3 of the written demands, on the calls themselves: any two runs on one log under the same
// settings, and both reductions.
#![tactic(auto)]

ghost use Rattle.listing.specs.Listing.{resources_of, GoesAsWritten};
ghost use Rattle.assurance_spec.specs.Demand3.{observed, Demand3};

use limits::{Refusal, Settings};
use listing::{Listing, list_places};

// What two runs and the reductions of their lists answered.
#[derive(Drop)]
pub struct BothListings {
    pub first: Result<Listing, Refusal>,
    pub second: Result<Listing, Refusal>,
}

// Makes two runs on a log, each with a cache, a list and a budget of its own, and after a completed
// one reduces its list into a further buffer. The first two clauses say all that is answered and
// left; the third is demand 3.
pub fn list_twice(
    settings: Settings,
    text: &[u8],
    budget1: u32,
    rejected1: &mut [u64],
    found1: &mut [u32],
    kept1: &mut [u32],
    budget2: u32,
    rejected2: &mut [u64],
    found2: &mut [u32],
    kept2: &mut [u32],
) -> BothListings
    ensures first { GoesAsWritten settings text.now
        (resources_of rejected1.old found1.old kept1.old budget1)
        result.first rejected1.new found1.new kept1.new }
    ensures second { GoesAsWritten settings text.now
        (resources_of rejected2.old found2.old kept2.old budget2)
        result.second rejected2.new found2.new kept2.new }
    ensures demand3 { Demand3 settings text.now
        (observed
        (resources_of rejected1.old found1.old kept1.old budget1)
        result.first found1.new kept1.new)
        (observed
        (resources_of rejected2.old found2.old kept2.old budget2)
        result.second found2.new kept2.new) }
{
    let first = list_places(settings, text, budget1, rejected1, found1, kept1);
    let second = list_places(settings, text, budget2, rejected2, found2, kept2);
    BothListings { first, second }
}
