// Hexadecimal digits: 0 to 9 and A to F, never lower case. Reading and writing numbers in them.
ghost use Rattle.std.specs.Prelude.{◌≡◌, ◌<◌, ◌≤◌, length, true};
ghost use Rattle.hex_digits.specs.Digits.{digit_of, is_digit, digit_value, most_digits, number_in, digit_byte, write_hex};

// The value of a byte as a digit, if it is one.
#[tactic(auto, unfolding(crate::specs::Digits::digit_of))]
pub fn classify(byte: u8) -> Option<u8>
    ensures { result ≡ digit_of byte }
{
    match byte {
        b'0'..=b'9' => Some(byte - b'0'),
        b'A'..=b'F' => Some(byte - b'A' + 10),
        _ => None,
    }
}

// The value of a byte that is a digit, without a branch: 0 to 9 are the bytes 48 to 57, A to F 65 to
// 70.
#[tactic(auto, unfolding(crate::specs::Digits::is_digit, crate::specs::Digits::digit_of))]
pub fn digit_value(byte: u8) -> u8
    requires { is_digit byte ≡ true }
    ensures { result ≡ digit_value byte }
{
    byte % 16 + byte / 64 * 9
}

// The number that some digits write, the highest first: no more digits than 64 bits take. There is
// none where a byte is no digit.
#[tactic(auto, using(crate::proofs::laws::DigitsFromFront::digits_read))]
pub fn read_hex(digits: &[u8]) -> Option<u64>
    requires { length digits.now ≤ most_digits }
    ensures { result ≡ number_in digits.now }
{
    let mut number = 0;
    for byte in digits {
        number = 16 * number + u64::from(classify(*byte)?);
    }
    Some(number)
}

// The byte that writes a value below 16, with no branch: from 10 on it stands 7 further, where the
// letters are.
#[tactic(auto, unfolding(crate::specs::Digits::digit_byte))]
fn digit_byte(value: u8) -> u8
    requires { value < 16 }
    ensures { result ≡ digit_byte value }
{
    b'0' + value + (value + 6) / 16 * 7
}

// Fills a slice with a number's lowest digits, the highest first: as many as there are bytes.
#[tactic(auto, using(crate::proofs::laws::DigitsFromBack::digits_written))]
pub fn write_hex(number: u64, text: &mut [u8])
    ensures { text.new ≡ write_hex (length text.old) number }
{
    let mut rest = number;
    for at in (0..text.len()).rev() {
        text[at] = digit_byte((rest % 16) as u8);
        rest /= 16;
    }
}
