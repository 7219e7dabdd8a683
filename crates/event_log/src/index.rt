// The index of a log's frames, made once for all that a call does with them: document 01, "Settings
// and the log". What an entry of it holds is known in this file alone.
ghost use Rattle.std.specs.Prelude.{ℕ, ◌≡◌, ◌+◌, ◌≤◌, ◌<◌, List, length};
ghost use Rattle.foundation.specs.Buffers.{overwrite};
ghost use Rattle.limits.specs.Settings.{most_activities};
ghost use Rattle.event_log_spec.specs.Frames.{WrittenLog, most_frames};
ghost use Rattle.event_log_spec.specs.Lines.{frames_of, frame_at};
ghost use Rattle.event_log.specs.FrameIndex.{frame_index, Indexed, digits_start, activity_digits};
ghost use Rattle.event_log_spec.proofs.laws.OneWay.{log_prop};
ghost use Rattle.std.proofs.Props.{props};

use crate::frame::trace_end;
use log_lines::COUNT_DIGITS;
use log_lines::line::count_at;

// A frame of a log: where its activity digits end in the text, and its cases. The digits start after
// the line feed of the frame before and the frame's own count.
#[derive(Clone, Copy, Default)]
pub struct IndexedFrame {
    end: u32,
    cases: u32,
}

// A log that was accepted, and an entry for each of its frames, so that no frame has to be looked for
// and no count decoded when they are gone through again and again.
#[derive(Clone, Copy)]
pub struct IndexedLog<'a> {
    pub text: &'a [u8],
    index: &'a [IndexedFrame],
    pub ghost indexed: { Indexed text.now index.now } by { Prim.hlevel (log_prop, props) },
}

impl<'a> IndexedLog<'a> {
    // A log with the index that was written for it.
    pub fn new(text: &'a [u8], index: &'a [IndexedFrame]) -> Self
        requires { Indexed text.now index.now }
        ensures { result.text.now ≡ text.now }
    {
        IndexedLog { text, index }
    }

    // How many frames the log has.
    #[tactic(auto, using(crate::proofs::laws::IndexedFrames::found))]
    pub fn len(&self) -> usize
        ensures { result ≡ length (frames_of self.now.text.now) }
    {
        self.index.len()
    }

    // The cases of a frame.
    #[tactic(auto, using(crate::proofs::laws::IndexedFrames::found))]
    pub fn cases(&self, frame: usize) -> u64
        requires { frame < length (frames_of self.now.text.now) }
        ensures { result ≡ (frame_at self.now.text.now frame).cases }
    {
        frame_cases(self.index, frame)
    }

    // Where the activity digits of the frame after one start: behind its line feed and a count.
    #[tactic(auto, using(crate::proofs::laws::IndexedFrames::found))]
    pub fn next_start(&self, frame: usize) -> usize
        requires { frame < length (frames_of self.now.text.now) }
        ensures { result ≡ digits_start self.now.text.now (frame + 1) }
    {
        self.index[frame].end as usize + 1 + COUNT_DIGITS
    }

    // Where the activity digits of a frame start.
    #[tactic(auto, using(crate::proofs::laws::IndexedFrames::found))]
    pub fn digits_start(&self, frame: usize) -> usize
        requires { frame ≤ length (frames_of self.now.text.now) }
        ensures { result ≡ digits_start self.now.text.now frame }
    {
        match frame {
            0 => COUNT_DIGITS,
            _ => self.next_start(frame - 1),
        }
    }

    // The activity digits of a frame, from where they start: a part of the log's text.
    #[tactic(auto, using(crate::proofs::laws::IndexedFrames::found))]
    pub fn digits(&self, frame: usize, start: usize) -> &'a [u8]
        requires { (frame < length (frames_of self.now.text.now))
            × (start ≡ digits_start self.now.text.now frame) }
        ensures { result.now ≡ activity_digits (frame_at self.now.text.now frame) }
    {
        // in 16 bits, so that the compiler knows how few they are and takes two events in a turn
        let digits = (self.index[frame].end as usize - start) as u16;
        &self.text[start..start + usize::from(digits)]
    }
}

// The cases of a frame, whatever log the index is of.
#[tactic(auto, using(crate::proofs::laws::IndexedFrames::found))]
pub fn frame_cases(index: &[IndexedFrame], frame: usize) -> u64
    requires { frame < length index.now }
    ensures { (text : List ℕ) → Indexed text index.now → result ≡ (frame_at text frame).cases }
{
    u64::from(index[frame].cases)
}

// Writes the entries of an accepted log's frames from the front of a buffer that has room for as
// many as a log can have; answers how many there are.
#[tactic(auto, using(crate::proofs::laws::FrameIndex::frames_stored))]
pub fn index_frames(text: &[u8], index: &mut [IndexedFrame]) -> usize
    requires { WrittenLog most_activities (frames_of text.now) text.now
        × (most_frames ≤ length index.old) }
    ensures count { result ≡ length (frames_of text.now) }
    ensures index { index.new ≡ overwrite (frame_index 0 (frames_of text.now)) index.old }
{
    let mut count = 0;
    let mut at = 0;
    while at < text.len() {
        let end = trace_end(text, at + COUNT_DIGITS);
        let cases = count_at(text, at).unwrap();
        index[count] = IndexedFrame {
            end: end as u32,
            cases: cases as u32,
        };
        count += 1;
        at = end + 1;
    }
    count
}

// Indexes a log that was accepted, in a buffer that has room for as many frames as a log can have.
#[tactic(auto, using(crate::proofs::laws::FrameIndex::log_indexed))]
pub fn index_log<'a>(text: &'a [u8], buffer: &'a mut [IndexedFrame]) -> IndexedLog<'a>
    requires { WrittenLog most_activities (frames_of text.now) text.now
        × (most_frames ≤ length buffer.old) }
    ensures { result.text.now ≡ text.now }
{
    let frames = index_frames(text, buffer);
    IndexedLog {
        text,
        index: &buffer[..frames],
    }
}

// The activity digits of a log's first frame, for which no index is needed.
#[tactic(auto, using(crate::proofs::laws::IndexedFrames::first_part))]
pub fn first_digits(text: &[u8]) -> &[u8]
    requires { WrittenLog most_activities (frames_of text.now) text.now }
    ensures { result.now ≡ activity_digits (frame_at text.now 0) }
{
    let start = COUNT_DIGITS;
    let end = trace_end(text, start);
    &text[start..end]
}
