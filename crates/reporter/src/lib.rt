// All of the program placelist but its reads and writes: document 01, "Thinning and writing", last
// paragraph.
#![tactic(auto)]

ghost use Rattle.std.specs.Prelude.{◌≡◌, ◌≤◌, length, IfOk};
ghost use Rattle.foundation.specs.Buffers.{overwrite};
ghost use Rattle.limits.specs.Refusals.{Numbered, answer_number, answer_value};
ghost use Rattle.reporter_spec.specs.Program.{placelist};
ghost use Rattle.reporter.specs.Reporting.{log_report, most_output, reporting_refusal, reported, output_after};

use limits::{Refusal, Settings};
use listing::{Listing, list_places};
use report_lines::lines::{write_refusal, write_report};
use report_lines::settings_frame::settings_in;
use report_lines::{RUN_BYTES, SETTINGS_BYTES};
use writer::LINE_BYTES;

// The most bytes that the input may have; with more it is too large (oversize).
pub const MOST_INPUT: usize = 65536;

// The most bytes that are written: the lines of a full list, and the last line.
pub const MOST_OUTPUT: usize = LINE_BYTES * LIST_WORDS + RUN_BYTES;

// The words of the cache of rejected places (shelf).
const CACHE_WORDS: usize = 1024;

// The words of the list, and of the buffer for the reduced list.
const LIST_WORDS: usize = 4096;

// The replay budget (allowance).
const REPLAY_BUDGET: u32 = 1000000;

// Searches a log under settings, and writes the list and the last line, or the refusal.
fn report_log(settings: Settings, text: &[u8], output: &mut [u8]) -> usize
    requires { most_output ≤ length output.old }
    ensures count { result ≡ length (log_report settings text.now) }
    ensures text { output.new ≡ overwrite (log_report settings text.now) output.old }
{
    let mut rejected = [0u64; CACHE_WORDS];
    let mut found = [0u32; LIST_WORDS];
    let mut kept = [0u32; LIST_WORDS];
    match list_places(
        settings,
        text,
        REPLAY_BUDGET,
        &mut rejected,
        &mut found,
        &mut kept,
    ) {
        Err(refusal) => write_refusal(refusal, output),
        Ok(Listing::Incomplete(run)) => {
            let count = run.found;
            write_report(&found[..count], run, output)
        }
        Ok(Listing::Complete { run, reduced }) => match reduced {
            Ok(count) => write_report(&kept[..count], run, output),
            // never so: what was found are places, and the second buffer takes all of them
            Err(refusal) => write_refusal(refusal, output),
        },
    }
}

// Writes what placelist writes for an input into a buffer that is long enough for any.
#[tactic(auto, using(crate::proofs::laws::OutputRoom::too_large))]
fn report_input(input: &[u8], output: &mut [u8]) -> usize
    requires { most_output ≤ length output.old }
    ensures count { result ≡ length (placelist input.now) }
    ensures text { output.new ≡ overwrite (placelist input.now) output.old }
{
    if MOST_INPUT < input.len() {
        return write_refusal(Refusal::TooLarge { line: 0 }, output);
    }
    match settings_in(input) {
        Some(settings) => report_log(settings, &input[SETTINGS_BYTES..], output),
        None => write_refusal(Refusal::InvalidSetting, output),
    }
}

// Writes what placelist writes for an input, and answers how many bytes that is. A buffer that is
// too short for the longest output is refused, and left as it was; a longer one keeps its tail.
pub fn report_places(input: &[u8], output: &mut [u8]) -> Result<usize, Refusal>
    ensures answer { result ≡ reported input.now (length output.old) }
    ensures output { output.new ≡ output_after input.now output.old }
    ensures within { IfOk result (λ count. count ≤ length output.old) }
    ensures numbered { Numbered (reporting_refusal (length output.old)) (answer_number result) (answer_value result) }
{
    Refusal::BufferTooSmall.unless(MOST_OUTPUT <= output.len())?;
    Ok(report_input(input, output))
}
