// The call that summarizes the variants of a log.
ghost use Rattle.std.specs.Prelude.{◌≤◌, ◌*◌, IfOk};
ghost use Rattle.variants_spec.specs.Summary.{entry_words};

use crate::arguments::room_at;
use case_notation::numbers::argument;
use case_output::{answer_line, words_line};
use limits::Refusal;
use std::io;
use std::io::Write;
use variants_spec::ENTRY_WORDS;

// The words of the buffer for entries, and what it is filled with, which no entry shows.
const BUFFER_WORDS: usize = 64;

const WORD_FILL: u64 = 0xEEEEEEEEEEEEEEEE;

// How many variants a log has.
fn variants_line<W: Write>(out: &mut W, count: usize) -> io::Result<()> {
    writeln!(out, "  variants {count}")
}

// The answer, the entries that it counts, and the other words of the buffer.
fn summary_lines<W: Write>(
    out: &mut W,
    answer: Result<usize, Refusal>,
    buffer: &[u64; BUFFER_WORDS],
) -> io::Result<()>
    requires { IfOk answer (λ count. entry_words * count ≤ BUFFER_WORDS) }
{
    answer_line(out, answer, variants_line)?;
    let (entries, others) = buffer.split_at(ENTRY_WORDS * answer.unwrap_or(0));
    for entry in entries.chunks_exact(ENTRY_WORDS) {
        writeln!(
            out,
            "  first line {} frames {} cases {}",
            entry[0], entry[1], entry[2]
        )?;
    }
    words_line(out, "others", others)
}

// summarize A words text
pub fn summarize<W: Write>(out: &mut W, line: &[u8], text: &[u8]) -> Option<io::Result<()>> {
    let activities = argument(line, 1)?.try_into().ok()?;
    let room = room_at(line, 2, BUFFER_WORDS)?;
    let mut buffer = [WORD_FILL; BUFFER_WORDS];
    let answer = variants::summarize(activities, text, &mut buffer[..room]);
    Some(summary_lines(out, answer, &buffer))
}
