// What placelist writes after a listing: document 01, "Thinning and writing", last paragraph.
ghost use Rattle.std.specs.Prelude.{◌≡◌, ◌++◌, ◌+◌, ◌*◌, ◌≤◌, length};
ghost use Rattle.foundation.specs.Buffers.{overwrite};
ghost use Rattle.writer.specs.Writing.{line_bytes, list_text};
ghost use Rattle.reporter_spec.specs.Program.{refusal_line, refusal_bytes, result_bytes};
ghost use Rattle.report_lines.specs.ProgramLines.{fields_line, run_line};

use crate::{END_DIGITS, VALUE_DIGITS};
use discovery_spec::Run;
use hex_digits::hex::write_hex;
use limits::Refusal;
use log_lines::LINE_FEED;
use writer::write_lines;

// Writes numbers, each in so many digits and behind the one before, and a line feed, and answers how
// many bytes that is.
fn write_fields(fields: &[(u64, usize)], output: &mut [u8]) -> usize
    requires { length (fields_line fields.now) ≤ length output.old }
    ensures count { result ≡ length (fields_line fields.now) }
    ensures text { output.new ≡ overwrite (fields_line fields.now) output.old }
{
    let mut at = 0;
    for (number, digits) in fields {
        let next = at + *digits;
        write_hex(*number, &mut output[at..next]);
        at = next;
    }
    output[at] = LINE_FEED;
    at + 1
}

// Writes the line of a refusal, and answers its bytes: FF, its number, its value, a line feed.
#[tactic(auto, using(crate::proofs::laws::LineLengths::length_three, crate::proofs::laws::LineLengths::length_refusal, crate::proofs::laws::LineLengths::refusal_fields))]
pub fn write_refusal(refusal: Refusal, output: &mut [u8]) -> usize
    requires { refusal_bytes ≤ length output.old }
    ensures count { result ≡ length (refusal_line refusal) }
    ensures text { output.new ≡ overwrite (refusal_line refusal) output.old }
{
    let number = u64::from(refusal.number());
    let value = refusal.value() as u64;
    write_fields(
        &[
            (0xFF, END_DIGITS),
            (number, END_DIGITS),
            (value, VALUE_DIGITS),
        ],
        output,
    )
}

// Writes the last line, and answers its bytes: the end, the replays, the visits, a line feed.
#[tactic(auto, using(crate::proofs::laws::LineLengths::length_three, crate::proofs::laws::LineLengths::length_run, crate::proofs::laws::LineLengths::run_fields))]
fn write_run(run: Run, output: &mut [u8]) -> usize
    requires { result_bytes ≤ length output.old }
    ensures count { result ≡ length (run_line run) }
    ensures text { output.new ≡ overwrite (run_line run) output.old }
{
    let end = run.end.number();
    let replays = u64::from(run.replays);
    let visits = u64::from(run.visits);
    write_fields(
        &[
            (end, END_DIGITS),
            (replays, VALUE_DIGITS),
            (visits, VALUE_DIGITS),
        ],
        output,
    )
}

// Writes a list and the last line, and answers their bytes.
pub fn write_report(words: &[u32], run: Run, output: &mut [u8]) -> usize
    requires { line_bytes * length words.now + result_bytes ≤ length output.old }
    ensures count { result ≡ length (list_text words.now ++ run_line run) }
    ensures text { output.new ≡ overwrite (list_text words.now ++ run_line run) output.old }
{
    let count = write_lines(words, output);
    count + write_run(run, &mut output[count..])
}
