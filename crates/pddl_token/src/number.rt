//! The value of a number's text.

ghost use Rattle.std.specs.Prelude.{◌≡◌, ◌<◌, ◌≤◌, ◌+◌, ◌*◌, ◌-◌, ◌==◌, MatchOption, length, drop, slice_index};
ghost use Rattle.std.specs.List.{fold, list_all, prefix_len};
ghost use Rattle.std.specs.Char.{is_ascii_digit};
ghost use Rattle.pddl_token.specs.Number.{value_of, decimals_of, nine_of, add_digit};

use crate::fixed::{Fixed, LARGEST};

fn push_digit(value: u64, digit: u8) -> Option<u64>
    requires { value ≤ LARGEST }
    ensures { MatchOption result (LARGEST < add_digit value digit) (λ n. (n ≡ add_digit value digit) × (n ≤ LARGEST)) }
{
    if value > LARGEST / 10 {
        return None;
    }
    let longer = value * 10 + u64::from(digit.saturating_sub(b'0'));
    if longer > LARGEST { None } else { Some(longer) }
}

fn add_digits(value: u64, digits: &[u8]) -> Option<u64>
    requires { value ≤ LARGEST }
    ensures { MatchOption result (LARGEST < fold add_digit value digits.now)
        (λ n. (n ≡ fold add_digit value digits.now) × (n ≤ LARGEST)) }
{
    let mut longer = value;
    for digit in digits {
        longer = push_digit(longer, *digit)?;
    }
    Some(longer)
}

/// One of nine decimals, which `0` fills up.
fn decimal_at(decimals: &[u8], place: usize) -> u8
    requires { place < 9 }
    ensures { result ≡ slice_index (nine_of decimals.now) place }
{
    if place < decimals.len() {
        decimals[place]
    } else {
        b'0'
    }
}

#[tactic(auto, using(crate::proofs::Values::nine_zeros))]
fn add_nine_decimals(value: u64, decimals: &[u8]) -> Option<u64>
    requires { value ≤ LARGEST }
    ensures { MatchOption result (LARGEST < fold add_digit value (nine_of decimals.now))
        (λ n. (n ≡ fold add_digit value (nine_of decimals.now)) × (n ≤ LARGEST)) }
{
    if decimals.is_empty() {
        // nine zeros
        return if value > LARGEST / 1_000_000_000 {
            None
        } else {
            Some(value * 1_000_000_000)
        };
    }
    let mut longer = value;
    for place in 0..9 {
        longer = push_digit(longer, decimal_at(decimals, place))?;
    }
    Some(longer)
}

/// How many digits stand at the front.
pub fn digits_len(text: &[u8]) -> usize
    ensures value { result ≡ prefix_len is_ascii_digit text.now }
    ensures in_range { result ≤ length text.now }
{
    text.iter().take_while(|b| b.is_ascii_digit()).count()
}

#[tactic(auto, using(std::proofs::lemmas::List::drop_all))]
fn decimals_of(text: &[u8]) -> &[u8]
    ensures { result.now ≡ decimals_of text.now }
{
    let whole = digits_len(text);
    if whole < text.len() {
        text.split_at(whole + 1).1
    } else {
        &[]
    }
}

/// No digit after the ninth is other than `0`.
fn has_nine(decimals: &[u8]) -> bool
    ensures { result ≡ list_all (λ b. b == 48) (drop 9 decimals.now) }
{
    decimals.len() <= 9 || decimals.split_at(9).1.iter().all(|b| *b == b'0')
}

/// The value of a number's text: its digits before the point and nine decimals, read as one number of billionths.
///
/// None where a digit behind the ninth decimal is other than `0`, or the number is above 9999999999.999999999. Zeros in
/// front and at the end are free. Only the texts of tokens of kind `Number` have a value that means something. Kovacs'
/// definition gives numbers their form; the range is own.
pub fn value_of(text: &[u8]) -> Option<Fixed>
    ensures { result ≡ value_of text.now }
{
    let decimals = decimals_of(text);
    if !has_nine(decimals) {
        return None;
    }
    let whole = add_digits(0, text.split_at(digits_len(text)).0)?;
    Fixed::new(add_nine_decimals(whole, decimals)?)
}
