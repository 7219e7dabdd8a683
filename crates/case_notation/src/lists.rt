// Lists in the table, whose words have 32 bits.
ghost use Rattle.std.specs.Prelude.{◌≡◌, ◌<◌, ◌^◌, false};
ghost use Rattle.std.specs.Range.{range_inclusive_start, range_inclusive_end, range_inclusive_exhausted};
ghost use Rattle.case_notation.specs.Filling.{Filled};
ghost use Rattle.case_notation.specs.WordLists.{word_of, ends, run_meant, list_meant};

use crate::fields::{split_once, words};
use crate::numbers::number;
use std::ops::RangeInclusive;

// The word that eight digits write, or 0.
fn word_of(digits: &[u8]) -> u32
    ensures { result ≡ word_of digits.now }
{
    number(digits, 16).unwrap_or(0)
}

// A word alone, or the words from one to another.
fn run(run: &[u8]) -> RangeInclusive<u32>
    ensures from_to { (range_inclusive_start result, range_inclusive_end result) ≡ ends run.now }
    ensures within { range_inclusive_end result < 2 ^ 32 }
    ensures whole { range_inclusive_exhausted result ≡ false }
{
    let (first, last) = split_once(run, b'-').unwrap_or((run, run));
    word_of(first)..=word_of(last)
}

// Puts the words of a run into a list, as many as it has room for, and answers how many, if they are
// all.
fn put_run(list: &mut [u32], text: &[u8]) -> Option<usize>
    ensures { Filled list.old (run_meant text.now) list.new result }
{
    let (first, last) = run(text).into_inner();
    let count = (last as usize + 1).saturating_sub(first as usize);
    let room = count.min(list.len());
    for (at, slot) in list[..room].iter_mut().enumerate() {
        *slot = first + at as u32;
    }
    (count <= list.len()).then_some(count)
}

// Puts the words of a list into a buffer, as many as it has room for, and answers how many, if they
// are all.
pub fn unfold(text: &[u8], list: &mut [u32]) -> Option<usize>
    ensures { Filled list.old (list_meant text.now) list.new result }
{
    let mut count = 0;
    for word in words(text) {
        count += put_run(&mut list[count..], word)?;
    }
    Some(count)
}
