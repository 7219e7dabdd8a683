// Texts in the table.
ghost use Rattle.std.specs.Prelude.{ℕ, ◌*◌, ◌≡◌, ◌<◌, ◌≤◌, length, take, replicate};
ghost use Rattle.case_notation.specs.Filling.{Filled};
ghost use Rattle.case_notation.specs.Texts.{byte_meant, copies, bytes_meant, piece_meant, text_meant};

use crate::fields::{split_once, words};
use crate::filling::fill;
use crate::numbers::number;

// How many times a piece stands there whose count is no number: more than any buffer takes.
const TOO_MANY: usize = 4294967296;

// The byte that a byte of a text stands for.
fn meant(byte: u8) -> u8
    ensures { result ≡ byte_meant byte }
{
    match byte {
        b';' => b'\n',
        b'_' => b' ',
        b'^' => b'\r',
        _ => byte,
    }
}

// The bytes of a piece, and how many times it says.
fn copies(piece: &[u8]) -> (&[u8], usize)
    ensures { replicate result.1 result.0.now ≡ copies piece.now }
{
    match split_once(piece, b'*') {
        Some((count, bytes)) => (bytes, number(count, 10).map_or(TOO_MANY, |n| n as usize)),
        None => (piece, 1),
    }
}

// Covers a buffer with copies of what some bytes stand for: the first is written, and what is
// covered is copied behind itself until the buffer is full, twice as much each time.
fn cover(buffer: &mut [u8], bytes: &[u8])
    requires { 0 < length buffer.old → 0 < length bytes.now }
    ensures { (times : ℕ) → length buffer.old ≤ times * length bytes.now
        → buffer.new ≡ take (length buffer.old) (bytes_meant (replicate times bytes.now)) }
{
    let first = fill(buffer, bytes.iter().map(|byte| meant(*byte)));
    let mut covered = first.unwrap_or(buffer.len());
    while covered < buffer.len() {
        let more = covered.min(buffer.len() - covered);
        buffer.copy_within(..more, covered);
        covered += more;
    }
}

// Puts the bytes of a piece into a buffer, as many as it has room for, and answers how many, if they
// are all. Where a piece has no bytes, nothing is done, whatever its number says.
fn put_piece(buffer: &mut [u8], piece: &[u8]) -> Option<usize>
    ensures { Filled buffer.old (piece_meant piece.now) buffer.new result }
{
    let (bytes, times) = copies(piece);
    let count = times.saturating_mul(bytes.len());
    let room = count.min(buffer.len());
    cover(&mut buffer[..room], bytes);
    (count <= buffer.len()).then_some(count)
}

// Puts the bytes of a text into a buffer, as many as it has room for, and answers how many, if they
// are all.
pub fn unfold(text: &[u8], buffer: &mut [u8]) -> Option<usize>
    ensures { Filled buffer.old (text_meant text.now) buffer.new result }
{
    let mut count = 0;
    for piece in words(text) {
        count += put_piece(&mut buffer[count..], piece)?;
    }
    Some(count)
}
