// Filling a buffer.
ghost use Rattle.std.specs.Prelude.{List};
ghost use Rattle.std.specs.Iterator.{IsFinite};
ghost use Rattle.std.proofs.lemmas.Iterator.{YieldsList};
ghost use Rattle.case_notation.specs.Filling.{Filled};

// Puts what an iterator gives into a buffer, as much as it has room for, and answers how much, if
// that is all.
pub fn fill<T: Copy, I: Iterator<Item = T> + Drop>(buffer: &mut [T], mut items: I) -> Option<usize>
    requires can { I.can_next items }
    requires finite { IsFinite (I.remaining items) }
    ensures { (elements : List T) → YieldsList I.next_gives (λ x. x) items elements
        → Filled buffer.old elements buffer.new result }
{
    for (at, slot) in buffer.iter_mut().enumerate() {
        match items.next() {
            Some(item) => *slot = item,
            None => return Some(at),
        }
    }
    match items.next() {
        Some(_) => None,
        None => Some(buffer.len()),
    }
}
