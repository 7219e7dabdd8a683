// What is written, to any writer. A write that fails ends it, and its error is returned.
#![tactic(auto)]

ghost use Rattle.std.specs.Prelude.{◌≡◌, ◌≤◌, ◌<◌, ◌+◌, ◌==◌, ℕ, length, map, IfOk};
ghost use Rattle.std.specs.Borrow.{MutBor};
ghost use Rattle.case_output.specs.Together.{ConvertsTo, progression, together};

use case_notation::runs::run_length;
use hex_digits::hex::write_hex;
use limits::Refusal;
use std::io;
use std::io::Write;

// What a list is filled with: a word without outputs, which no call writes.
pub const LIST_FILL: u32 = 0xEEEE;

pub fn not_a_case<W: Write>(out: &mut W) -> io::Result<()> {
    writeln!(out, "  not a case")
}

fn refusal<W: Write>(out: &mut W, refusal: Refusal) -> io::Result<()> {
    let number = refusal.number();
    let value = refusal.value();
    writeln!(out, "  refused {number} at {value}")
}

// What a call answers, as `write` writes it, or its refusal, of which the contract says nothing.
pub fn answer_line<W: Write, T, F: FnOnce(&mut W, T) -> io::Result<()>>(
    out: &mut W,
    answer: Result<T, Refusal>,
    write: F,
) -> io::Result<()>
    requires { F.IsAlwaysCallable write }
    ensures { IfOk answer (λ answered. (before after : MutBor W)
        × F.post write before answered result after
        × (before.now ≡ out.old) × (after.now ≡ out.new)) }
{
    match answer {
        Ok(answer) => write(out, answer),
        Err(why) => refusal(out, why),
    }
}

// A word that is written in so many hexadecimal digits.
pub trait Word: Copy + Into<u64> {
    const DIGITS: usize;
}

// A word of a list.
impl Word for u32 {
    const DIGITS: usize = 8;
}

// A word of a cache or of a summary.
impl Word for u64 {
    const DIGITS: usize = 9;
}

// A word, by one write: in more digits than its kind has where it needs them.
fn put_word<W: Write, T: Word>(out: &mut W, word: T) -> io::Result<()> {
    let word: u64 = word.into();
    let mut text = [0; 16];
    write_hex(word, &mut text);
    let zeros = word.leading_zeros() as usize / 4;
    let unused = text.len().saturating_sub(T::DIGITS);
    out.write_all(&text[zeros.min(unused)..])
}

// One word is so much more than another.
fn is_more_by<T: Word>(before: T, word: T, step: u64) -> bool
    ensures { (number : T → ℕ) → ConvertsTo T.converts number
        → result ≡ (number before + step == number word) }
{
    let before: u64 = before.into();
    before.checked_add(step) == Some(word.into())
}

// How many words from the first on are each so much more than the one before.
fn progression<T: Word>(words: &[T], step: u64) -> usize
    ensures some { 0 < length words.now → 0 < result }
    ensures within { result ≤ length words.now }
    ensures run { (number : T → ℕ) → ConvertsTo T.converts number
        → result ≡ progression step (map number words.now) }
{
    run_length(words, |before, word| is_more_by(*before, *word, step))
}

// How many words from the first on are written together: three or more of a progression, or the
// first alone.
fn together<T: Word>(words: &[T], step: u64) -> usize
    requires { 0 < length words.now }
    ensures some { 0 < result }
    ensures within { result ≤ length words.now }
    ensures run { (number : T → ℕ) → ConvertsTo T.converts number
        → result ≡ together step (map number words.now) }
{
    let run = progression(words, step);
    if 3 <= run { run } else { 1 }
}

// All words of a buffer, three or more that are equal or that rise by one in the short form.
fn put_words<W: Write, T: Word>(out: &mut W, words: &[T]) -> io::Result<()> {
    let mut rest = words;
    while let [first, ..] = rest {
        let equal = together(rest, 0);
        let rising = together(rest, 1);
        write!(out, " ")?;
        if 1 < equal {
            write!(out, "{equal}*")?;
        }
        put_word(out, *first)?;
        if 1 < rising {
            write!(out, "-")?;
            put_word(out, rest[rising - 1])?;
        }
        rest = &rest[equal.max(rising)..];
    }
    Ok(())
}

// A line of all words of a buffer.
pub fn words_line<W: Write, T: Word>(out: &mut W, name: &str, words: &[T]) -> io::Result<()> {
    write!(out, "  {name}")?;
    put_words(out, words)?;
    writeln!(out)
}

// A byte, the line feed as a semicolon.
fn put_byte<W: Write>(out: &mut W, byte: u8) -> io::Result<()> {
    let shown = if byte == b'\n' { b';' } else { byte };
    out.write_all(&[shown])
}

// The bytes that a call wrote.
fn put_written<W: Write>(out: &mut W, bytes: &[u8]) -> io::Result<()> {
    if !bytes.is_empty() {
        write!(out, " ")?;
    }
    for byte in bytes {
        put_byte(out, *byte)?;
    }
    Ok(())
}

// How many bytes from the first on are equal.
fn equal_bytes(bytes: &[u8]) -> usize
    ensures some { 0 < length bytes.now → 0 < result }
    ensures within { result ≤ length bytes.now }
    ensures run { result ≡ progression 0 bytes.now }
{
    run_length(bytes, |before, byte| before == byte)
}

// Bytes, the equal ones together.
fn put_equal_bytes<W: Write>(out: &mut W, bytes: &[u8]) -> io::Result<()> {
    let mut rest = bytes;
    while let [first, ..] = rest {
        let count = equal_bytes(rest);
        write!(out, " {count}*")?;
        put_byte(out, *first)?;
        rest = &rest[count..];
    }
    Ok(())
}

// A line of all bytes of a buffer: those that a call wrote, and the others.
pub fn text_line<W: Write>(out: &mut W, written: &[u8], others: &[u8]) -> io::Result<()> {
    write!(out, "  text")?;
    put_written(out, written)?;
    put_equal_bytes(out, others)?;
    writeln!(out)
}
