// Writing a list of places as text: document 01, "Thinning and writing", the writer.
#![tactic(auto)]

ghost use Rattle.std.specs.Prelude.{◌≡◌, ◌*◌, ◌≤◌, length};
ghost use Rattle.foundation.specs.Buffers.{overwrite};
ghost use Rattle.limits.specs.Refusals.{Numbered, answer_number, answer_value};
ghost use Rattle.writer.specs.Writing.{line_bytes, place_line, list_text, writing_refusal, written, written_after};

use hex_digits::hex::write_hex;
use limits::Refusal;
use places::Place;
use places::list::check_words;

// The digits of a set.
const SET_DIGITS: usize = 4;

// The digits of a place's line, its inputs and then its outputs, and its bytes with the line feed.
const LINE_DIGITS: usize = 2 * SET_DIGITS;

pub const LINE_BYTES: usize = LINE_DIGITS + 1;

// Writes the line of a place into the bytes of a line.
fn write_line(word: u32, line: &mut [u8])
    requires { length line.old ≡ line_bytes }
    ensures { line.new ≡ place_line word }
{
    let place = Place::from(word);
    write_hex(u64::from(place.inputs), &mut line[0..SET_DIGITS]);
    write_hex(u64::from(place.outputs), &mut line[SET_DIGITS..LINE_DIGITS]);
    line[LINE_DIGITS] = b'\n';
}

// Writes the lines of a list from the front of a buffer that has room for them, and answers their
// bytes.
pub fn write_lines(words: &[u32], text: &mut [u8]) -> usize
    requires { line_bytes * length words.now ≤ length text.old }
    ensures count { result ≡ length (list_text words.now) }
    ensures text { text.new ≡ overwrite (list_text words.now) text.old }
{
    let mut count = 0;
    for word in words {
        let next = count + LINE_BYTES;
        write_line(*word, &mut text[count..next]);
        count = next;
    }
    count
}

// Document 01's writer: turns the words of a list into their lines, and answers how many bytes that
// makes. Bytes behind the lines stay what they were, and a refused call changes nothing. The bytes
// of a list may be more than a number holds, so the room is divided.
#[tactic(auto, using(crate::proofs::laws::Refusals::call_checks), unfolding(crate::proofs::laws::Refusals::answer_opened))]
pub fn write_places(words: &[u32], text: &mut [u8]) -> Result<usize, Refusal>
    ensures answer { result ≡ written words.now (length text.old) }
    ensures text { text.new ≡ written_after words.now text.old }
    ensures numbered { Numbered (writing_refusal words.now (length text.old)) (answer_number result) (answer_value result) }
{
    check_words(words, text.len() / LINE_BYTES)?;
    Ok(write_lines(words, text))
}
