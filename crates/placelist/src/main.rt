// The program placelist: it reads standard input, and writes the places of the log in it or the
// refusal. What it writes for what it reads is the work of `reporter`. Where it cannot read or
// write, it says so on standard error.
#![tactic(auto)]

use input::read_full;
use reporter::{MOST_INPUT, MOST_OUTPUT, report_places};
use std::io::Print;

// One byte more than may be read, so that a longer input is seen to be one.
const INPUT_BYTES: usize = MOST_INPUT + 1;

// Writes what placelist writes for an input.
fn write_report(rt: &HostRuntime, input: &[u8]) {
    let mut output = [0u8; MOST_OUTPUT];
    match report_places(input, &mut output) {
        Ok(count) => {
            if rt.write_all(&output[..count]).is_err() {
                let _ = eprintln!(rt; "placelist: standard output could not be written");
            }
        }
        // never so: the buffer takes the longest output
        Err(_) => {}
    }
}

fn main(rt: HostRuntime) {
    let mut bytes = [0u8; INPUT_BYTES];
    match read_full(&mut rt.stdin(), &mut bytes) {
        Ok(count) => write_report(&rt, &bytes[..count]),
        Err(_) => {
            let _ = eprintln!(rt; "placelist: standard input could not be read");
        }
    }
}
