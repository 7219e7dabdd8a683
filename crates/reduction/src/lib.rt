// Removing redundant places from a list: document 01, "Thinning and writing", where it is called
// thinning.
#![tactic(auto)]

ghost use Rattle.std.specs.Prelude.{◌≡◌, ◌≤◌, length};
ghost use Rattle.foundation.specs.Buffers.{overwrite};
ghost use Rattle.limits.specs.Refusals.{Numbered, answer_number, answer_value};
ghost use Rattle.reduction_spec.specs.Cover.{Listable};
ghost use Rattle.reduction_spec.specs.Reduction.{reduced_words, reduction_refusal, reduced, reduced_after};

use crate::union::is_redundant;
use limits::Refusal;
use places::list::check_words;

mod union; // union.rt: whether a place is a union of others

// How many words that can be parts of a place are copied before it is searched.
const ROOM: usize = 1024;

// The words of a list whose places are not redundant, in their order, written from the front of a
// buffer that is at least as long.
fn keep_irredundant(words: &[u32], kept: &mut [u32]) -> usize
    requires places { Listable words.now }
    requires room { length words.now ≤ length kept.old }
    ensures count { result ≡ length (reduced_words words.now) }
    ensures list { kept.new ≡ overwrite (reduced_words words.now) kept.old }
{
    let mut parts = [0u32; ROOM];
    let mut count = 0;
    for &word in words {
        if !is_redundant(words, word, &mut parts) {
            kept[count] = word;
            count += 1;
        }
    }
    count
}

// Writes the words of a list whose places are not redundant into a second buffer, in their order,
// and answers how many they are.
#[tactic(auto, using(crate::proofs::laws::Checks::call_checks), unfolding(crate::proofs::laws::Checks::answer_opened))]
pub fn reduce(words: &[u32], kept: &mut [u32]) -> Result<usize, Refusal>
    ensures answer { result ≡ reduced words.now (length kept.old) }
    ensures list { kept.new ≡ reduced_after words.now kept.old }
    ensures numbered { Numbered
        (reduction_refusal words.now (length kept.old))
        (answer_number result) (answer_value result) }
{
    check_words(words, kept.len())?;
    Ok(keep_irredundant(words, kept))
}
