// The calls for programs in other languages, over numbers and slices. Each answers the number of
// its refusal, or 0, and writes what document 01 returns beside the number to `value`, or 0. Its
// results are written only where it is not refused. In C a slice is a pointer and a length, and
// what lies behind a `&mut` may overlap with nothing else that the call is given.
#![tactic(auto)]

ghost use Rattle.std.specs.Prelude.{◌≡◌, length};
ghost use Rattle.limits.specs.Refusals.{answer_number, answer_value};
ghost use Rattle.places.specs.Places.{place};
ghost use Rattle.event_log_spec.specs.Checking.{checked};
ghost use Rattle.variants_spec.specs.Summary.{summarized, summary_after};
ghost use Rattle.replay_spec.specs.Answers.{replayed, judged};
ghost use Rattle.discovery_spec.specs.Discovery.{discovered, capacity_of, found_after, rejected_after};
ghost use Rattle.reduction_spec.specs.Reduction.{reduced, reduced_after};
ghost use Rattle.writer.specs.Writing.{written, written_after};
ghost use Rattle.reporter.specs.Reporting.{reported, output_after};
ghost use Rattle.capi.specs.Settings.{settings_of};
ghost use Rattle.capi.specs.Results.{sizes_after, least_after, last_after, missing_after};
ghost use Rattle.capi.specs.Results.{counts_after, verdict_after, line_after, event_after};
ghost use Rattle.capi.specs.Results.{run_after, count_after};
ghost use Rattle.capi.specs.Version.{version};

use discovery::discover;
use event_log::check_log;
use limits::{Refusal, Settings};
use places::Place;
use reduction::reduce;
use replay::{judge_place, replay_first_trace};
use reporter::report_places;
use variants::summarize;
use writer::write_places;

// The version of the calls and formats, as `library/placelist.h` has it.
const MAJOR: u32 = 3;

const MINOR: u32 = 0;

const PATCH: u32 = 0;

// What a call answers: the number of its refusal, or 0, with the value beside it written.
#[tactic(auto, unfolding(limits::specs::Refusals::answer_number, limits::specs::Refusals::answer_value))]
fn answer<T: Drop>(answer: Result<T, Refusal>, value: &mut u64) -> u8
    ensures number { result ≡ answer_number answer }
    ensures value { value.new ≡ answer_value answer }
{
    match answer {
        Ok(_) => {
            *value = 0;
            0
        }
        Err(refusal) => {
            *value = refusal.value() as u64;
            refusal.number()
        }
    }
}

// The answer of a call that counts words, bytes or entries, with how many they are.
#[tactic(auto, unfolding(crate::specs::Results::count_after))]
fn answer_count(counted: Result<usize, Refusal>, value: &mut u64, count: &mut u64) -> u8
    ensures number { result ≡ answer_number counted }
    ensures value { value.new ≡ answer_value counted }
    ensures count { count.new ≡ count_after counted count.old }
{
    if let Ok(counted) = counted {
        *count = counted as u64;
    }
    answer(counted, value)
}

// The version of the calls and formats, so that a program can ask what it was linked with.
#[unsafe(no_mangle)]
pub extern "C" fn placelist_version() -> u32
    ensures { result ≡ version }
{
    MAJOR * 65536 + MINOR * 256 + PATCH
}

// Checks a log: how many frames and cases it has.
#[tactic(auto, unfolding(crate::specs::Results::sizes_after))]
#[unsafe(no_mangle)]
pub extern "C" fn placelist_check(
    activities: u8,
    text: &[u8],
    value: &mut u64,
    counts: &mut [u64; 2],
) -> u8
    ensures number { result ≡ answer_number (checked activities text.now) }
    ensures value { value.new ≡ answer_value (checked activities text.now) }
    ensures counts { counts.new ≡ sizes_after (checked activities text.now) counts.old }
{
    let checked = check_log(activities, text);
    if let Ok(size) = &checked {
        *counts = [size.frames as u64, size.cases];
    }
    answer(checked, value)
}

// Replays the first trace of a log on a place: the least and the last balance, and the index of the
// first event at which a token is missing, or -1.
#[tactic(auto, unfolding(crate::specs::Results::least_after, crate::specs::Results::last_after, crate::specs::Results::missing_after))]
#[unsafe(no_mangle)]
pub extern "C" fn placelist_replay(
    activities: u8,
    text: &[u8],
    inputs: u16,
    outputs: u16,
    value: &mut u64,
    least: &mut i16,
    last: &mut i16,
    missing: &mut i32,
) -> u8
    ensures number { result ≡ answer_number (replayed activities text.now (place inputs outputs)) }
    ensures value { value.new
        ≡ answer_value (replayed activities text.now (place inputs outputs)) }
    ensures least { least.new
        ≡ least_after (replayed activities text.now (place inputs outputs)) least.old }
    ensures last { last.new
        ≡ last_after (replayed activities text.now (place inputs outputs)) last.old }
    ensures missing { missing.new
        ≡ missing_after (replayed activities text.now (place inputs outputs)) missing.old }
{
    let replayed = replay_first_trace(activities, text, Place { inputs, outputs });
    if let Ok(balances) = &replayed {
        *least = balances.least;
        *last = balances.last;
        *missing = balances.first_missing.index();
    }
    answer(replayed, value)
}

// Judges a place over a log at a threshold: the case counts, the verdict, and the indices of the
// first line that underfeeds the place and of its first event at which a token is missing, or -1.
#[tactic(auto, unfolding(crate::specs::Results::counts_after, crate::specs::Results::verdict_after, crate::specs::Results::line_after, crate::specs::Results::event_after))]
#[unsafe(no_mangle)]
pub extern "C" fn placelist_judge(
    activities: u8,
    threshold: u16,
    text: &[u8],
    inputs: u16,
    outputs: u16,
    value: &mut u64,
    counts: &mut [u64; 4],
    verdict: &mut u8,
    line: &mut i32,
    event: &mut i32,
) -> u8
    ensures number { result ≡ answer_number (judged activities threshold text.now (place inputs outputs)) }
    ensures value { value.new
        ≡ answer_value (judged activities threshold text.now (place inputs outputs)) }
    ensures counts { counts.new
        ≡ counts_after (judged activities threshold text.now (place inputs outputs)) counts.old }
    ensures verdict { verdict.new
        ≡ verdict_after (judged activities threshold text.now (place inputs outputs)) verdict.old }
    ensures line { line.new
        ≡ line_after (judged activities threshold text.now (place inputs outputs)) line.old }
    ensures event { event.new
        ≡ event_after (judged activities threshold text.now (place inputs outputs)) event.old }
{
    let judged = judge_place(activities, threshold, text, Place { inputs, outputs });
    if let Ok(judgement) = &judged {
        let cases = judgement.counts;
        *counts = [cases.fitting, cases.underfed, cases.overfed, cases.both];
        *verdict = judgement.verdict.mark();
        *line = judgement.first_underfed.line_index();
        *event = judgement.first_underfed.event_index();
    }
    answer(judged, value)
}

// Summarizes the variants of a log: how many entries there are, with the entries.
#[unsafe(no_mangle)]
pub extern "C" fn placelist_summarize(
    activities: u8,
    text: &[u8],
    entries: &mut [u64],
    value: &mut u64,
    count: &mut u64,
) -> u8
    ensures number { result
        ≡ answer_number (summarized activities text.now (length entries.old)) }
    ensures value { value.new
        ≡ answer_value (summarized activities text.now (length entries.old)) }
    ensures count { count.new
        ≡ count_after (summarized activities text.now (length entries.old)) count.old }
    ensures entries { entries.new ≡ summary_after activities text.now entries.old }
{
    answer_count(summarize(activities, text, entries), value, count)
}

// Searches the candidates for the places that a log fits: how the run ended and what it counted,
// with the words rejected and found.
#[tactic(auto, unfolding(crate::specs::Results::run_after))]
#[unsafe(no_mangle)]
pub extern "C" fn placelist_search(
    activities: u8,
    most_inputs: u8,
    most_outputs: u8,
    threshold: u16,
    text: &[u8],
    budget: u32,
    rejected: &mut [u64],
    found: &mut [u32],
    value: &mut u64,
    run: &mut [u64; 5],
) -> u8
    ensures number { result
        ≡ answer_number (discovered (settings_of activities most_inputs most_outputs threshold) text.now
        (capacity_of rejected.old found.old budget)) }
    ensures value { value.new
        ≡ answer_value (discovered (settings_of activities most_inputs most_outputs threshold) text.now
        (capacity_of rejected.old found.old budget)) }
    ensures run { run.new
        ≡ run_after (discovered (settings_of activities most_inputs most_outputs threshold) text.now
        (capacity_of rejected.old found.old budget)) run.old }
    ensures rejected { rejected.new
        ≡ rejected_after (settings_of activities most_inputs most_outputs threshold) text.now
        rejected.old found.old budget }
    ensures found { found.new
        ≡ found_after (settings_of activities most_inputs most_outputs threshold) text.now
        rejected.old found.old budget }
{
    let settings = Settings {
        activities,
        inputs: most_inputs,
        outputs: most_outputs,
        threshold,
    };
    let discovered = discover(settings, text, budget, rejected, found);
    if let Ok(done) = &discovered {
        *run = [
            done.end.number(),
            done.found as u64,
            done.rejected as u64,
            u64::from(done.replays),
            u64::from(done.visits),
        ];
    }
    answer(discovered, value)
}

// Removes the redundant places from a list: how many words are left, with the words.
#[unsafe(no_mangle)]
pub extern "C" fn placelist_reduce(
    words: &[u32],
    kept: &mut [u32],
    value: &mut u64,
    count: &mut u64,
) -> u8
    ensures number { result ≡ answer_number (reduced words.now (length kept.old)) }
    ensures value { value.new ≡ answer_value (reduced words.now (length kept.old)) }
    ensures count { count.new ≡ count_after (reduced words.now (length kept.old)) count.old }
    ensures kept { kept.new ≡ reduced_after words.now kept.old }
{
    answer_count(reduce(words, kept), value, count)
}

// Writes a list of places as text: how many bytes it has, with the text.
#[unsafe(no_mangle)]
pub extern "C" fn placelist_write(
    words: &[u32],
    text: &mut [u8],
    value: &mut u64,
    count: &mut u64,
) -> u8
    ensures number { result ≡ answer_number (written words.now (length text.old)) }
    ensures value { value.new ≡ answer_value (written words.now (length text.old)) }
    ensures count { count.new ≡ count_after (written words.now (length text.old)) count.old }
    ensures text { text.new ≡ written_after words.now text.old }
{
    answer_count(write_places(words, text), value, count)
}

// All of the program placelist but its reads and writes: how many bytes it writes for an input,
// with the bytes. A refusal that it writes as a line is no refusal of the call.
#[unsafe(no_mangle)]
pub extern "C" fn placelist_report(
    input: &[u8],
    output: &mut [u8],
    value: &mut u64,
    count: &mut u64,
) -> u8
    ensures number { result ≡ answer_number (reported input.now (length output.old)) }
    ensures value { value.new ≡ answer_value (reported input.now (length output.old)) }
    ensures count { count.new ≡ count_after (reported input.now (length output.old)) count.old }
    ensures output { output.new ≡ output_after input.now output.old }
{
    answer_count(report_places(input, output), value, count)
}
