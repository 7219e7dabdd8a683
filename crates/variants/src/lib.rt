// The summary of a log's variants: document 02, b).
#![tactic(auto)]

ghost use Rattle.std.specs.Prelude.{◌≡◌, ◌*◌, ◌≤◌, ◌<◌, length, map};
ghost use Rattle.foundation.specs.Lists.{Each};
ghost use Rattle.foundation.specs.Buffers.{overwrite};
ghost use Rattle.limits.specs.Refusals.{Numbered, answer_number, answer_value};
ghost use Rattle.event_log_spec.specs.Lines.{frames_of};
ghost use Rattle.variants_spec.specs.Summary.{entry_words, summary, summary_refusal, summarized, summary_after};
ghost use Rattle.variants.specs.Words.{words_end, variant_word, entries_in};

use crate::gathering::{gather, write_frame_words};
use crate::words::entry_in;
use event_log::check_log;
use event_log::index::{IndexedFrame, IndexedLog, index_log};
use limits::Refusal;
use log_lines::MOST_FRAMES;
use sorting::sort_words;
use variants_spec::ENTRY_WORDS;

mod gathering; // gathering.rt: the variants of a log, gathered from the words of its frames
mod tally; // tally.rt: how often each activity occurs in a trace
mod words; // words.rt: the words that frames and variants are sorted by

// The words of a log's variants, each before those that it leads, in a part of a buffer that has
// room for a word for each frame.
fn variant_words<'a>(log: &IndexedLog, words: &'a mut [u128]) -> &'a [u128]
    requires { length words.old ≡ length (frames_of log.now.text.now) }
    ensures { result.now ≡ map variant_word (summary (frames_of log.now.text.now)) }
{
    write_frame_words(log, words);
    sort_words(words);
    let first = gather(log, words);
    let variants = &mut words[first..];
    sort_words(variants);
    variants
}

// Writes the entries of variants, by their words, from the front of a buffer that has room for
// them.
fn write_entries(words: &[u128], entries: &mut [u64])
    requires { (entry_words * length words.now ≤ length entries.old)
        × Each (λ word. word < words_end) words.now }
    ensures { entries.new ≡ overwrite (entries_in words.now) entries.old }
{
    let mut at = 0;
    for word in words {
        let next = at + ENTRY_WORDS;
        entries[at..next].copy_from_slice(&entry_in(*word));
        at = next;
    }
}

// Summarizes the variants of a log: how many there are, with an entry for each.
pub fn summarize(activities: u8, text: &[u8], entries: &mut [u64]) -> Result<usize, Refusal>
    ensures answer { result ≡ summarized activities text.now (length entries.old) }
    ensures entries { entries.new ≡ summary_after activities text.now entries.old }
    ensures numbered { Numbered (summary_refusal activities text.now (length entries.old))
        (answer_number result) (answer_value result) }
{
    check_log(activities, text)?;
    let mut index = [IndexedFrame::default(); MOST_FRAMES];
    let log = index_log(text, &mut index);
    let frames = log.len();
    let mut words = [0; MOST_FRAMES];
    let variants = variant_words(&log, &mut words[..frames]);
    Refusal::BufferTooSmall.unless(variants.len() <= entries.len() / ENTRY_WORDS)?;
    write_entries(variants, entries);
    Ok(variants.len())
}
