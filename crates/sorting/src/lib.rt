// Sorting words.
#![tactic(auto)]

ghost use Rattle.std.specs.Prelude.{◌≡◌, ◌≤◌};
ghost use Rattle.std.specs.List.Sorted.{IsPermutation};
ghost use Rattle.foundation.specs.Lists.{Ordered};
ghost use Rattle.sorting.specs.Sorting.{sorted};

// Sorts words in place: what it leaves is a permutation of what it was given, ascending, and there
// is one such list. The standard library's sort is a quicksort that turns to heaps where its parts
// stay large; by the kit's account, which is no part of what is proved, it takes in the order of n
// log n comparisons, whatever the words.
pub fn sort_words(words: &mut [u128])
    ensures sorted { words.new ≡ sorted words.old }
    ensures permutation { IsPermutation words.old words.new }
    ensures ascends { Ordered ◌≤◌ words.new }
{
    words.sort_unstable();
}
