// The calls by name, and a line of the table.
ghost use Rattle.std.specs.Prelude.{◌≡◌};
ghost use Rattle.cases.specs.Calls.{name, call_named, leading_words};

use crate::{listings, logs, rewrites, summaries};
use case_notation::fields::{lines, rest, word};
use case_notation::texts::unfold;
use case_output::not_a_case;
use std::io;
use std::io::Write;

// The room for the text of a line. The program refuses inputs of more than 65,536 bytes, and a text
// of one byte more has room.
const TEXT_ROOM: usize = 65537;

#[derive(Clone, Copy, Drop)]
pub enum Call {
    Check,
    Replay,
    Judge,
    Summarize,
    Search,
    List,
    Twice,
    Reduce,
    Write,
    Report,
}

impl Call {
    const ALL: [Call; 10] = [
        Call::Check,
        Call::Replay,
        Call::Judge,
        Call::Summarize,
        Call::Search,
        Call::List,
        Call::Twice,
        Call::Reduce,
        Call::Write,
        Call::Report,
    ];

    fn name(self) -> &'static [u8]
        ensures { result.now ≡ name self }
    {
        match self {
            Call::Check => b"check",
            Call::Replay => b"replay",
            Call::Judge => b"judge",
            Call::Summarize => b"summarize",
            Call::Search => b"search",
            Call::List => b"list",
            Call::Twice => b"twice",
            Call::Reduce => b"reduce",
            Call::Write => b"write",
            Call::Report => b"report",
        }
    }

    // The call of a name.
    fn named(name: &[u8]) -> Option<Call>
        ensures { result ≡ call_named name.now }
    {
        Self::ALL.iter().copied().find(|call| call.name() == name)
    }

    // How many words of a line stand before its text or list.
    fn leading_words(self) -> usize
        ensures { result ≡ leading_words self }
    {
        match self {
            Call::Check | Call::Reduce | Call::Write | Call::Report => 2,
            Call::Replay | Call::Summarize => 3,
            Call::Judge => 4,
            Call::Search => 8,
            Call::List => 9,
            Call::Twice => 13,
        }
    }

    // Makes the call of a line, with the text that stands at its end, if it is a case.
    fn run<W: Write>(self, out: &mut W, line: &[u8], text: &[u8]) -> Option<io::Result<()>> {
        match self {
            Call::Check => logs::check(out, line, text),
            Call::Replay => logs::replay(out, line, text),
            Call::Judge => logs::judge(out, line, text),
            Call::Summarize => summaries::summarize(out, line, text),
            Call::Search => listings::search(out, line, text),
            Call::List => listings::list(out, line, text),
            Call::Twice => listings::twice(out, line, text),
            Call::Reduce => rewrites::reduce_list(out, line),
            Call::Write => rewrites::write(out, line),
            Call::Report => rewrites::report(out, line, text),
        }
    }
}

// Runs the case of a line, if it is one.
fn run_case<W: Write>(out: &mut W, line: &[u8]) -> Option<io::Result<()>> {
    let call = Call::named(word(line, 0))?;
    let mut text = [0u8; TEXT_ROOM];
    let count = unfold(rest(line, call.leading_words()), &mut text)?;
    call.run(out, line, &text[..count])
}

// Copies a line, and runs its case where it has one.
fn run_line<W: Write>(out: &mut W, line: &[u8]) -> io::Result<()> {
    out.write_all(line)?;
    writeln!(out)?;
    match line {
        [] | [b'#', ..] => Ok(()),
        _ => run_case(out, line).unwrap_or_else(|| not_a_case(out)),
    }
}

// Runs the lines of a table, one after the other.
pub fn run_lines<W: Write>(out: &mut W, table: &[u8]) -> io::Result<()> {
    for line in lines(table) {
        run_line(out, line)?;
    }
    Ok(())
}
