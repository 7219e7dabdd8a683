// The words that frames and variants are sorted by, and what they hold.
ghost use Rattle.std.specs.Prelude.{◌≡◌, ◌<◌};
ghost use Rattle.variants.specs.Words.{line_room, words_end, variant_word, entry_in};

use variants_spec::{ENTRY_WORDS, Variant};

// Room for a line or for how many frames there are, neither of which is above 4,096.
pub const LINE_ROOM: u128 = 65536;

// What no tally is: it is above them all.
pub const NO_TALLY: u128 = u128::MAX;

// The word of a variant: of two words the lower one's variant leads.
#[tactic(auto, unfolding(crate::specs::Words::variant_word))]
pub fn variant_word(variant: Variant) -> u128
    requires { (variant.first_line < line_room) × (variant.frames < line_room) }
    ensures { result ≡ variant_word variant }
{
    let cases = u128::from(u64::MAX - variant.cases);
    cases * (LINE_ROOM * LINE_ROOM)
        + variant.first_line as u128 * LINE_ROOM
        + variant.frames as u128
}

// The entry of the variant of a word.
#[tactic(auto, unfolding(crate::specs::Words::variant_in))]
pub fn entry_in(word: u128) -> [u64; ENTRY_WORDS]
    requires { word < words_end }
    ensures { result ≡ entry_in word }
{
    let first_line = (word / LINE_ROOM % LINE_ROOM) as u64;
    let frames = (word % LINE_ROOM) as u64;
    let cases = u64::MAX - (word / (LINE_ROOM * LINE_ROOM)) as u64;
    [first_line, frames, cases]
}
