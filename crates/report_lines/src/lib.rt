// The lines of the program placelist: the settings frame that it reads, and what it writes after a
// listing. Document 01, "Thinning and writing", last paragraph.
#![tactic(auto)]

pub mod lines; // lines.rt: what is written after a listing
pub mod settings_frame; // settings_frame.rt: the settings that an input begins with

// The digits of an end, and of the FF and the number of a refusal; and those of replays, visits and
// a refusal's value.
const END_DIGITS: usize = 2;

const VALUE_DIGITS: usize = 8;

// The digits of the last line, and its bytes with the line feed.
const RUN_DIGITS: usize = END_DIGITS + 2 * VALUE_DIGITS;

pub const RUN_BYTES: usize = RUN_DIGITS + 1;

// The digits of A, mi and mo each, and of T.
const BOUND_DIGITS: usize = 2;

const THRESHOLD_DIGITS: usize = 4;

// The digits of the settings frame, and its bytes with the line feed.
const SETTINGS_DIGITS: usize = 3 * BOUND_DIGITS + THRESHOLD_DIGITS;

pub const SETTINGS_BYTES: usize = SETTINGS_DIGITS + 1;
