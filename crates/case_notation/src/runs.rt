// Equal and rising words, which are written in a short form.
ghost use Rattle.std.specs.Prelude.{◌≡◌, ◌≤◌, ◌<◌, Bool, length};
ghost use Rattle.std.specs.Fn.{ComputesOnPairs};
ghost use Rattle.case_notation.specs.Runs.{run_length};

// How many words from the first on each follow the one before.
pub fn run_length<T, F: FnMut(&T, &T) -> bool + Drop>(words: &[T], follows: F) -> usize
    requires { F.IsAlwaysCallable follows }
    ensures within { result ≤ length words.now }
    ensures some { 0 < length words.now → 0 < result }
    ensures run { (test : T → T → Bool) → ComputesOnPairs F.FnMut test follows
        → result ≡ run_length test words.now }
{
    match words.chunk_by(follows).next() {
        Some(first) => first.len(),
        None => 0,
    }
}
