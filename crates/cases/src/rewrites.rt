// The calls that write a list again without its redundant places, or as text, and the one that does
// all of placelist.
ghost use Rattle.std.specs.Prelude.{◌≡◌, ◌≤◌, IfOk, IfSome};
ghost use Rattle.case_notation.specs.Fields.{rest_after};
ghost use Rattle.case_notation.specs.WordLists.{list_meant};

use crate::arguments::room_at;
use case_notation::fields::rest;
use case_notation::lists::unfold;
use case_output::{LIST_FILL, answer_line, text_line, words_line};
use limits::Refusal;
use reduction::reduce;
use reporter::report_places;
use std::io;
use std::io::Write;
use writer::write_places;

// The room for the list of a line, and the words of the buffer for a reduced one: more than the most
// words of a list.
const LIST_ROOM: usize = 4159;

const KEPT_WORDS: usize = 4160;

// The bytes of a text that a call writes, more than the longest output of the program, and what it
// is filled with.
const TEXT_BYTES: usize = 36900;

const TEXT_FILL: u8 = b'~';

// How many words a reduction leaves.
pub fn kept_line<W: Write>(out: &mut W, count: usize) -> io::Result<()> {
    writeln!(out, "  kept {count}")
}

fn reduced_lines<W: Write>(
    out: &mut W,
    answer: Result<usize, Refusal>,
    kept: &[u32; KEPT_WORDS],
) -> io::Result<()> {
    answer_line(out, answer, kept_line)?;
    words_line(out, "reduced", kept)
}

// The list at the end of a line.
fn list_in<'a>(line: &[u8], list: &'a mut [u32; LIST_ROOM]) -> Option<&'a [u32]>
    ensures { IfSome result (λ words. words.now ≡ list_meant (rest_after 2 line.now)) }
{
    let count = unfold(rest(line, 2), list)?;
    Some(&list[..count])
}

// reduce reduced list
pub fn reduce_list<W: Write>(out: &mut W, line: &[u8]) -> Option<io::Result<()>> {
    let mut list = [0u32; LIST_ROOM];
    let list = list_in(line, &mut list)?;
    let room = room_at(line, 1, KEPT_WORDS)?;
    let mut kept = [LIST_FILL; KEPT_WORDS];
    let answer = reduce(list, &mut kept[..room]);
    Some(reduced_lines(out, answer, &kept))
}

// How many bytes a call writes.
fn bytes_line<W: Write>(out: &mut W, count: usize) -> io::Result<()> {
    writeln!(out, "  bytes {count}")
}

// What a call that writes a text answers, and the text.
fn written_lines<W: Write>(
    out: &mut W,
    answer: Result<usize, Refusal>,
    text: &[u8; TEXT_BYTES],
) -> io::Result<()>
    requires { IfOk answer (λ count. count ≤ TEXT_BYTES) }
{
    answer_line(out, answer, bytes_line)?;
    let (written, others) = text.split_at(answer.unwrap_or(0));
    text_line(out, written, others)
}

// write text list
pub fn write<W: Write>(out: &mut W, line: &[u8]) -> Option<io::Result<()>> {
    let mut list = [0u32; LIST_ROOM];
    let list = list_in(line, &mut list)?;
    let room = room_at(line, 1, TEXT_BYTES)?;
    let mut text = [TEXT_FILL; TEXT_BYTES];
    let answer = write_places(list, &mut text[..room]);
    Some(written_lines(out, answer, &text))
}

// report text text
pub fn report<W: Write>(out: &mut W, line: &[u8], input: &[u8]) -> Option<io::Result<()>> {
    let room = room_at(line, 1, TEXT_BYTES)?;
    let mut output = [TEXT_FILL; TEXT_BYTES];
    let answer = report_places(input, &mut output[..room]);
    Some(written_lines(out, answer, &output))
}
