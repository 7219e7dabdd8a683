// The words that can be parts of what is left of a whole.
ghost use Rattle.std.specs.Prelude.{◌≡◌, length};
ghost use Rattle.exact_cover.specs.Gathering.{gathered, gathered_after};

use cover_choice::Remainder;

// Writes the words that can be parts of what is left from the front of a buffer, as long as there is
// room, and answers how many they are, where there was room for all.
#[tactic(auto, using(crate::proofs::laws::GatheredParts::gathering))]
pub fn gather(rest: Remainder, parts: &mut [u32]) -> Option<usize>
    ensures answer { let of = rest.entry in
        result ≡ gathered of.words.now of.whole of.left (length parts.old) }
    ensures buffer { let of = rest.entry in
        parts.new ≡ gathered_after of.words.now of.whole of.left parts.old }
{
    let mut count = 0;
    for &word in rest.words {
        if rest.takes(word) {
            if parts.len() <= count {
                return None;
            }
            parts[count] = word;
            count += 1;
        }
    }
    Some(count)
}
