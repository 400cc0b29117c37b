ghost use Rattle.std.specs.Prelude.{◌≡◌, ◌≤◌, true, nat_le, Some, None, if◌then◌else◌, IfSome};
ghost use Rattle.std.specs.List.{list_all};
ghost use Rattle.ndc_script_words.specs.Number.{is_digit, has_leading_zero, value_on};
ghost use Rattle.ndc_tool_words.specs.Numbers.{is_written, number_within};

use ndc_script_words::{are_digits, has_leading_zero};

/// Whether the word is a number.
fn is_written(word: &[u8]) -> bool
    ensures { result ≡ is_written word.now }
{
    !word.is_empty() && are_digits(word) && !has_leading_zero(word)
}

/// The value of a number, where it is not above the greatest.
fn value_to(most: u64, word: &[u8]) -> Option<u64>
    requires digits { list_all is_digit word.now ≡ true }
    ensures { result ≡ (if nat_le (value_on 0 word.now) most then Some
        (value_on 0 word.now) else None) }
{
    let mut value = 0;
    for byte in word {
        let digit = u64::from(*byte - b'0');
        if value > (u64::MAX - digit) / 10 {
            return None;
        }
        value = value * 10 + digit;
    }
    if value <= most { Some(value) } else { None }
}

/// The number that a word is, where it is in the range.
pub fn number_within(least: u64, most: u64, word: &[u8]) -> Option<u64>
    ensures value { result ≡ number_within least most word.now }
    ensures most { IfSome result (λ number. number ≤ most) }
{
    if !is_written(word) {
        return None;
    }
    let value = value_to(most, word)?;
    if least <= value { Some(value) } else { None }
}
