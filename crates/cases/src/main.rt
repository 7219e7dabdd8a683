// Runs a table of cases on standard input, and writes what each call answers and leaves in every
// buffer.
//
// A blank line, and one that begins with #, is copied. Any other line is a call, which is copied
// too, and its answer follows on lines that begin with two blanks. The words of a call have a blank
// between two: its name, numbers in decimal, places as 0001/0004, and to the end of the line a text
// or a list:
//     check A text
//     replay A place text
//     judge A T place text
//     summarize A words text
//     search A mi mo T cache list budget text
//     list A mi mo T cache list reduced budget text
//     twice A mi mo T cache list reduced budget cache list reduced budget text
//     reduce reduced list
//     write text list
//     report text text
// where words, cache, list, reduced and text, if not at the end, are how many words or bytes of a
// buffer are lent. A text is pieces that have a blank between two: 3*00 is 00 three times, ; the
// line feed, _ the blank, ^ the carriage return, and any other byte itself. A list is words of
// eight hexadecimal digits: 00010001-00010FFF is all from the first to the last. What is no such
// word counts as 00000000.
//
// An answer is its fields by name. Below it are the buffers, with every word or byte that they
// have, also beyond what is lent. Before a call they are filled with what no call writes: a list
// with words 0000EEEE, a cache with words 3FFFF0000, which would rule every candidate if they were
// read, the words of a summary with EEEEEEEEEEEEEEEE, a text with ~. Of a summary the entries that
// the answer counts come first, by their fields, then the other words. In a list 3*0000EEEE is
// three equal words, and 00010001-00010003 is three words, each one more than the one before. In a
// text the bytes come first that a call says it wrote, then the others, the equal ones together.
//
// A line that names no call, lacks an argument or asks for more than the buffers have is no case,
// and its answer says so.
#![tactic(auto)]

use input::read_full;
use std::io;

mod arguments; // arguments.rt: what the words of a line say
mod calls; // calls.rt: the calls by name, and a line of the table
mod listings; // listings.rt: the calls that search
mod logs; // logs.rt: the calls that answer numbers alone
mod rewrites; // rewrites.rt: the calls that write a list again, or as text
mod summaries; // summaries.rt: the call that summarizes variants

// A read or a write that fails ends the program with its error.
fn main(rt: HostRuntime) -> io::Result<()> {
    let mut table = [0u8; 131072];
    let count = read_full(&mut rt.stdin(), &mut table)?;
    calls::run_lines(&mut io::writer(&rt), &table[..count])
}
