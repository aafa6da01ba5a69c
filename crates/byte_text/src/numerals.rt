//! Decimal digits, and the numbers that they write.
ghost use Rattle.std.specs.Prelude.{◌≡◌, ◌≤◌, ◌<◌, true, IfSome, MatchOption};
ghost use Rattle.std.specs.Str.{all_ascii_digits};
ghost use Rattle.std.specs.Str.Parse.{digits_value};
ghost use Rattle.byte_text.specs.Numerals.{is_numeral, number_within};

/// Whether each byte is a decimal digit.
pub fn are_digits(text: &[u8]) -> bool
    ensures { result ≡ all_ascii_digits text.now }
{
    text.iter().all(|byte| byte.is_ascii_digit())
}

// Whether a text is digits alone, without a zero before others.
fn is_numeral(text: &[u8]) -> bool
    ensures { result ≡ is_numeral text.now }
{
    let Some(first) = text.first() else {
        return false;
    };
    (text.len() == 1 || *first != b'0') && are_digits(text)
}

// The number that digits write, if it is at most the greatest allowed.
fn digits_value(text: &[u8], most: u32) -> Option<u32>
    requires { all_ascii_digits text.now ≡ true }
    ensures { MatchOption result (most < digits_value 10 text.now)
        (λ number. (number ≡ digits_value 10 text.now) × (number ≤ most)) }
{
    let mut number = 0u32;
    for digit in text {
        let next = 10 * u64::from(number) + u64::from(*digit - b'0');
        if next > u64::from(most) {
            return None;
        }
        number = next as u32;
    }
    Some(number)
}

/// The number from `least` to `most` that a text writes in decimal digits without leading zeros.
pub fn read_number(text: &[u8], least: u32, most: u32) -> Option<u32>
    ensures value { result ≡ number_within least most text.now }
    ensures within { IfSome result (λ number. (least ≤ number) × (number ≤ most)) }
{
    if !is_numeral(text) {
        return None;
    }
    let number = digits_value(text, most)?;
    if number < least {
        return None;
    }
    Some(number)
}
