// The parts of a text, as the words of a line.
ghost use Rattle.std.specs.Prelude.{◌≡◌, ◌==◌, option_map, position};
ghost use Rattle.std.specs.Iterator.{YieldsFirstRef, item_count};
ghost use Rattle.case_notation.specs.Fields.{part_before, part_after, split_once, parts_of, rest_after, word_at};

// Where the first such byte stands.
fn find(text: &[u8], byte: u8) -> Option<usize>
    ensures { result ≡ position (λ b. b == byte) text.now }
{
    text.iter().position(|b| *b == byte)
}

// What stands before the first such byte and what stands after it.
pub fn split_once(text: &[u8], byte: u8) -> Option<(&[u8], &[u8])>
    ensures { option_map (λ p. (p.0.now, p.1.now)) result ≡ split_once byte text.now }
{
    let at = find(text, byte)?;
    Some((&text[..at], &text[at + 1..]))
}

// The same of any text: all of one that has no such byte stands before it.
pub fn cut(text: &[u8], byte: u8) -> (&[u8], &[u8])
    ensures before { result.0.now ≡ part_before byte text.now }
    ensures after { result.1.now ≡ part_after byte text.now }
{
    split_once(text, byte).unwrap_or((text, &[]))
}

// The parts of a text, each of which ends before such a byte or with the text.
#[derive(Drop)]
pub struct Parts<'a> {
    pub rest: &'a [u8],
    pub separator: u8,
}

impl<'a> Iterator for Parts<'a> {
    type Item = &'a [u8];

    ghost next_gives = { YieldsFirstRef (λ s. parts_of s.separator s.rest.now) };

    ghost remaining = { item_count (λ s. parts_of s.separator s.rest.now) };

    #[tactic(auto, using(crate::proofs::laws::Parts::parts_first), unfolding(crate::specs::Fields::parts_of))]
    fn next(&mut self) -> Option<&'a [u8]> {
        if self.rest.is_empty() {
            return None;
        }
        let (part, rest) = cut(self.rest, self.separator);
        self.rest = rest;
        Some(part)
    }
}

// The words of a text, which have a blank between two.
pub fn words(text: &[u8]) -> Parts<'_>
    ensures text { result.rest.now ≡ text.now }
    ensures blank { result.separator ≡ 32 }
{
    Parts {
        rest: text,
        separator: b' ',
    }
}

// The lines of a text.
pub fn lines(text: &[u8]) -> Parts<'_>
    ensures text { result.rest.now ≡ text.now }
    ensures line_feed { result.separator ≡ 10 }
{
    Parts {
        rest: text,
        separator: b'\n',
    }
}

// What follows so many words.
#[tactic(auto, using(crate::proofs::laws::Parts::rest_less), unfolding(crate::specs::Fields::rest_after))]
pub fn rest(line: &[u8], words: usize) -> &[u8]
    ensures { result.now ≡ rest_after words line.now }
{
    let mut rest = line;
    for _ in 0..words {
        (_, rest) = cut(rest, b' ');
    }
    rest
}

// The word that follows so many.
pub fn word(line: &[u8], index: usize) -> &[u8]
    ensures { result.now ≡ word_at index line.now }
{
    let (word, _) = cut(rest(line, index), b' ');
    word
}
