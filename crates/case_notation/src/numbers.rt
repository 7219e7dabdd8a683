// Numbers in the table. They have 32 bits.
ghost use Rattle.std.specs.Prelude.{◌≡◌};
ghost use Rattle.case_notation.specs.Numbers.{longer, number_of, number_at};

use crate::fields::word;
use hex_digits::hex::classify;

// A number with one digit more: none where the digit is not below the base, or where it needs more
// than 32 bits. A byte that is no hexadecimal digit counts as 16.
fn with_digit(number: u32, base: u8, byte: u8) -> Option<u32>
    ensures { result ≡ longer base number byte }
{
    let value = classify(byte).unwrap_or(16);
    if base <= value {
        return None;
    }
    number
        .checked_mul(u32::from(base))?
        .checked_add(u32::from(value))
}

// The number that some digits write to a base.
#[tactic(auto, using(crate::proofs::laws::Digits::one_read), unfolding(crate::specs::Numbers::continued))]
pub fn number(digits: &[u8], base: u8) -> Option<u32>
    ensures { result ≡ number_of base digits.now }
{
    if digits.is_empty() {
        return None;
    }
    let mut number = 0;
    for byte in digits {
        number = with_digit(number, base, *byte)?;
    }
    Some(number)
}

// The decimal number that a word of a line is.
pub fn argument(line: &[u8], index: usize) -> Option<u32>
    ensures { result ≡ number_at index line.now }
{
    number(word(line, index), 10)
}
