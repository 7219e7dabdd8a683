// The variants of a log, gathered from the sorted words of its frames.
ghost use Rattle.std.specs.Prelude.{◌≡◌, ◌+◌, ◌^◌, ◌≤◌, ◌<◌, ◌++◌, if◌then◌else◌, length, take, map};
ghost use Rattle.sorting.specs.Sorting.{sorted};
ghost use Rattle.event_log_spec.specs.Lines.{frames_of, frame_at};
ghost use Rattle.variants.specs.Words.{frame_words, line_room, variant_word};
ghost use Rattle.variants.specs.Gathering.{no_frames, with_line, gathered};

use crate::tally::Tally;
use crate::words::{LINE_ROOM, NO_TALLY, variant_word};
use event_log::index::IndexedLog;
use variants_spec::Variant;

// Writes the words of a log's frames.
pub fn write_frame_words(log: &IndexedLog, words: &mut [u128])
    requires { length words.old ≡ length (frames_of log.now.text.now) }
    ensures { words.new ≡ frame_words (frames_of log.now.text.now) }
{
    let mut start = log.digits_start(0);
    for line in 0..words.len() {
        words[line] = Tally::of(log.digits(line, start)).word(line);
        start = log.next_start(line);
    }
}

// The variant that a frame is added to: the one so far, or a new one without frames.
fn begun(is_new: bool, variant: Variant) -> Variant
    ensures { result ≡ (if is_new then no_frames else variant) }
{
    if is_new { Variant::default() } else { variant }
}

// A variant with one frame more, whose line comes before those of its other frames.
#[tactic(auto, unfolding(crate::specs::Gathering::with_line))]
fn with_line(log: &IndexedLog, line: usize, variant: Variant) -> Variant
    requires { (line < length (frames_of log.now.text.now)) × (variant.frames < line_room)
        × (variant.cases + (frame_at log.now.text.now line).cases < 2 ^ 64) }
    ensures { result ≡ with_line (frames_of log.now.text.now) line variant }
{
    Variant {
        first_line: line,
        frames: variant.frames + 1,
        cases: variant.cases + log.cases(line),
    }
}

// Gathers the sorted words of a log's frames, from the last to the first, into the words of its
// variants. These stand at the end of the buffer, from the index that is answered.
pub fn gather(log: &IndexedLog, words: &mut [u128]) -> usize
    requires { words.old ≡ sorted (frame_words (frames_of log.now.text.now)) }
    ensures within { result ≤ length words.old }
    ensures words { words.new ≡ take result words.old
        ++ map variant_word (gathered (frames_of log.now.text.now) words.old) }
{
    let mut first = words.len();
    let mut tally = NO_TALLY;
    let mut variant = Variant::default();
    for at in (0..words.len()).rev() {
        let word = words[at];
        let is_new = word / LINE_ROOM != tally;
        first -= usize::from(is_new);
        tally = word / LINE_ROOM;
        variant = with_line(log, (word % LINE_ROOM) as usize, begun(is_new, variant));
        words[first] = variant_word(variant);
    }
    first
}
