//! Numbers in text, and the cut of a text in two.
ghost use Rattle.std.specs.Prelude.{◌≡◌, ◌<◌, ◌≤◌, ◌^◌, ◌==◌, ℕ, true, length, position, IfSome, decimal, option_map};
ghost use Rattle.std.specs.List.{list_all};
ghost use Rattle.std.specs.Char.{is_ascii_digit};
ghost use Rattle.mv_base.specs.Number.{number_of, is_number, value_after, cut_of, cut_texts};

const DIGIT_LIMIT: usize = 10;

fn are_digits(text: &[u8]) -> bool
    ensures { result ≡ list_all is_ascii_digit text.now }
{
    text.iter().all(|octet| octet.is_ascii_digit())
}

/// Whether the text is a decimal number of at most 10 digits without leading zeros.
#[tactic(auto, unfolding(crate::specs::Number::is_number))]
fn is_number(text: &[u8]) -> bool
    ensures { result ≡ is_number text.now }
{
    let digits = are_digits(text);
    match text {
        [] => false,
        [_] => digits,
        [first, ..] => *first != b'0' && text.len() <= DIGIT_LIMIT && digits,
    }
}

/// The number that the text writes in decimal without leading zeros, where it has at most 10 digits.
pub fn read_number(text: &[u8]) -> Option<u64>
    ensures value { result ≡ number_of text.now }
    ensures written { IfSome result (λ n. text.now ≡ decimal n) }
    ensures only_written { (n : ℕ) → n < 10 ^ 10 → text.now ≡ decimal n → result ≡ Some n }
{
    if !is_number(text) {
        return None;
    }
    Some(digits_value(text))
}

fn digits_value(text: &[u8]) -> u64
    requires few { length text.now ≤ DIGIT_LIMIT }
    ensures { result ≡ value_after 0 text.now }
{
    let mut value = 0;
    for digit in text {
        value = 10 * value + u64::from(digit.saturating_sub(b'0'));
    }
    value
}

fn first_place(text: &[u8], mark: u8) -> Option<usize>
    ensures place { result ≡ position (λ octet. octet == mark) text.now }
    ensures within { IfSome result (λ place. place < length text.now) }
{
    text.iter().position(|octet| *octet == mark)
}

/// The text before the first `mark`, and the text after it.
pub fn cut_at(text: &[u8], mark: u8) -> Option<(&[u8], &[u8])>
    ensures { option_map cut_texts result ≡ cut_of mark text.now }
{
    match first_place(text, mark) {
        None => None,
        Some(place) => Some((&text[..place], &text[place + 1..])),
    }
}
