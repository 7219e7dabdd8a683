// The notation of the table of cases: how its lines give numbers, texts and lists, and which words
// and bytes are written together. What it means is said in `crates/cases/src/main.rt`.
#![tactic(auto)]

pub mod fields; // fields.rt: the parts of a text, as the words of a line
pub mod filling; // filling.rt: filling a buffer
pub mod lists; // lists.rt: lists in the table
pub mod numbers; // numbers.rt: numbers in the table
pub mod runs; // runs.rt: equal and rising words
pub mod texts; // texts.rt: texts in the table
