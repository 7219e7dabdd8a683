// The search over candidates for the places that a log fits: document 01, "The walk".
#![tactic(auto)]

ghost use Rattle.std.specs.Prelude.{◌≡◌, ◌≤◌};
ghost use Rattle.limits.specs.Refusals.{Numbered, answer_number, answer_value};
ghost use Rattle.discovery_spec.specs.Discovery.{run_refusal, discovered, replays_in};
ghost use Rattle.discovery_spec.specs.Discovery.{capacity_of, found_after, rejected_after};

use crate::search::search_from;
use candidate_visit::{RunState, Search};
use discovery_spec::{End, Run};
use event_log::check_log;
use event_log::index::{IndexedFrame, index_log};
use limits::{Refusal, Settings};
use log_lines::MOST_FRAMES;
use places::Place;

mod search; // search.rt: the candidates one after the other

// Searches the candidates in their order for those that the log fits, with the room of two buffers
// and a budget of replays. The words of found places are written from the front of the one buffer,
// and those of rejected places from the front of the other. What the buffers hold is not read.
pub fn discover(
    settings: Settings,
    text: &[u8],
    budget: u32,
    rejected: &mut [u64],
    found: &mut [u32],
) -> Result<Run, Refusal>
    ensures answer { result
        ≡ discovered settings text.now (capacity_of rejected.old found.old budget) }
    ensures cache { rejected.new ≡ rejected_after settings text.now rejected.old found.old budget }
    ensures list { found.new ≡ found_after settings text.now rejected.old found.old budget }
    ensures numbered { Numbered (run_refusal settings text.now)
        (answer_number result) (answer_value result) }
    ensures within { replays_in result ≤ budget }
{
    Refusal::InvalidSetting.unless(settings.are_in_range())?;
    check_log(settings.activities, text)?;
    let mut index = [IndexedFrame::default(); MOST_FRAMES];
    let search = Search {
        settings,
        log: index_log(text, &mut index),
        budget,
    };
    let mut run = RunState {
        rejected,
        found,
        rejected_count: 0,
        found_count: 0,
        replays: 0,
        visits: 0,
    };
    let first = Place {
        inputs: 1,
        outputs: 1,
    };
    let stopped = search_from(&search, &mut run, first).err();
    Ok(Run {
        end: stopped.unwrap_or(End::Completed),
        found: run.found_count,
        rejected: run.rejected_count,
        replays: run.replays,
        visits: run.visits,
    })
}
