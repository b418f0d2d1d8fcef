// Reading a decimal number.

ghost use Rattle.std.specs.Prelude.{◌≡◌, ℕ, ◌+◌, ◌^◌, ◌<◌, ◌≤◌, List, length, IfSome, Decides, MatchOption, MatchResult, OnErr};
ghost use Rattle.decimals.specs.Numerals.{Decimal, Digits, Numeral, places_of, Refused, Spells, value as value_of};

use crate::kinds::{Misread, Places};

// The most digits that a number may have.
const MOST_DIGITS: usize = 15;

impl Places {
    // How many digits may follow the point.
    pub fn count(self) -> usize
        ensures { result ≡ places_of self }
    {
        match self {
            Places::Zero => 0,
            Places::Two => 2,
            Places::Three => 3,
        }
    }
}

// Whether the text is one digit or more, and nothing else.
fn is_numeral(text: &[u8]) -> bool
    ensures { Decides result (Numeral text.now) }
{
    !text.is_empty() && text.iter().all(|b| b.is_ascii_digit())
}

// The digits before the point and those after it, if the text is a decimal number.
fn parts(text: &[u8]) -> Option<(&[u8], &[u8])>
    ensures parted { MatchOption result ((whole part : List ℕ) → Decimal text.now whole part → ⊥) (λ x. Decimal text.now x.0.now x.1.now) }
    ensures short { IfSome result (λ x. length x.0.now + length x.1.now ≤ length text.now) }
{
    let Some(at) = text.iter().position(|b| *b == b'.') else {
        return is_numeral(text).then_some((text, &[]));
    };
    let (whole, part) = (&text[..at], &text[at + 1..]);
    (is_numeral(whole) && is_numeral(part)).then_some((whole, part))
}

// The number that at most 15 digits write.
fn value(digits: &[u8]) -> u64
    requires all { Digits digits.now }
    requires few { length digits.now ≤ 15 }
    ensures is { result ≡ value_of digits.now }
    ensures small { result < 1000000000000000 }
{
    digits
        .iter()
        .fold(0, |value, b| 10 * value + u64::from(*b - b'0'))
}

// A small power of ten.
fn ten_to(exponent: usize) -> u64
    requires { exponent ≤ 3 }
    ensures is { result ≡ 10 ^ exponent }
    ensures small { result ≤ 1000 }
{
    // at most 3, so that `as` loses nothing; `u32::try_from(..).unwrap()` would ask for the same proof and say no more
    10u64.pow(exponent as u32)
}

// The number that a text writes, in units of its last place: with two places, 6.5 is 650.
pub fn read(text: &[u8], places: Places) -> Result<u64, Misread>
    ensures means { MatchResult result (λ n. Spells (places_of places) text.now n) (λ e. Refused (places_of places) text.now e) }
    ensures only { OnErr result ((n : ℕ) → Spells (places_of places) text.now n → ⊥) }
{
    if text.is_empty() {
        return Err(Misread::Empty);
    }
    let (whole, part) = parts(text).ok_or(Misread::NotANumber)?;
    if whole.len() + part.len() > MOST_DIGITS {
        return Err(Misread::TooManyDigits);
    }
    let count = places.count();
    if part.len() > count {
        return Err(Misread::TooManyDecimals);
    }
    Ok(value(whole) * ten_to(count) + value(part) * ten_to(count - part.len()))
}
