// The number that a word writes.
ghost use Rattle.std.specs.Prelude.{◌≡◌, ◌≤◌};
ghost use Rattle.lines.specs.Numbers.{digit, numeral, written, at_most};

// Decimal digits, or `0o` and octal digits: the number that they write, if it is at most `most`.
pub fn number(word: &[u8], most: u32) -> Option<u32>
    ensures { result ≡ at_most most (written word.now) }
{
    match word.strip_prefix(b"0o") {
        Some(octal) => bounded_numeral(octal, 8, most),
        None => bounded_numeral(word, 10, most),
    }
}

fn is_digit(byte: u8, base: u8) -> bool
    ensures { result ≡ digit base byte }
{
    byte >= b'0' && byte - b'0' < base
}

// Reading stops once the sum passes `most`, so no run of digits is too long.
fn bounded_numeral(digits: &[u8], base: u8, most: u32) -> Option<u32>
    requires { base ≤ 10 }
    ensures { result ≡ at_most most (numeral base digits.now) }
{
    if digits.is_empty() {
        return None;
    }
    let mut sum = 0u64;
    for byte in digits {
        if !is_digit(*byte, base) {
            return None;
        }
        sum = sum * u64::from(base) + u64::from(*byte - b'0');
        if sum > u64::from(most) {
            return None;
        }
    }
    Some(sum as u32)
}
