ghost use Rattle.std.specs.Prelude.{◌≡◌};
ghost use Rattle.std.specs.List.{list_all};
ghost use Rattle.ndc_script_words.specs.Number.{is_digit, is_number, has_leading_zero, number_of};

/// The greatest number of digits.
const MAX_DIGITS: usize = 18;

/// Whether these are digits alone.
pub fn are_digits(word: &[u8]) -> bool
    ensures { result ≡ list_all is_digit word.now }
{
    word.iter().all(|byte| 48 <= *byte && *byte <= 57)
}

/// Whether a number begins with a 0 that it should not have.
pub fn has_leading_zero(word: &[u8]) -> bool
    ensures { result ≡ has_leading_zero word.now }
{
    match word {
        [] => false,
        [byte, rest @ ..] => *byte == b'0' && !rest.is_empty(),
    }
}

/// Whether the word is a number.
fn is_number(word: &[u8]) -> bool
    ensures { result ≡ is_number word.now }
{
    !word.is_empty() && word.len() <= MAX_DIGITS && are_digits(word) && !has_leading_zero(word)
}

/// The number that a word of 1 to 18 digits without a leading zero is.
pub fn number_of(word: &[u8]) -> Option<u64>
    ensures { result ≡ number_of word.now }
{
    if !is_number(word) {
        return None;
    }
    let mut value = 0;
    for byte in word {
        value = value * 10 + u64::from(*byte - b'0');
    }
    Some(value)
}
