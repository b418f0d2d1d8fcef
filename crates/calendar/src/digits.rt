// Numbers of a fixed count of decimal digits, in ASCII.
ghost use Rattle.std.specs.Prelude.{◌≡◌, ◌≤◌, [], ◌∷◌, IsAscii};
ghost use Rattle.calendar.specs.Texts.{Reads, two_digits, four_digits};

use std::str::from_utf8;

pub(crate) fn two_digits(n: u8) -> [u8; 2]
    requires { n ≤ 99 }
    ensures { result ≡ two_digits n }
{
    [b'0' + n / 10, b'0' + n % 10]
}

pub(crate) fn read_two(tens: u8, ones: u8) -> Option<u8>
    ensures { Reads two_digits 99 (tens ∷ ones ∷ []) result }
{
    match (tens, ones) {
        (b'0'..=b'9', b'0'..=b'9') => Some(10 * (tens - b'0') + (ones - b'0')),
        _ => None,
    }
}

#[tactic(auto, using(crate::proofs::Reading::four))]
pub(crate) fn read_four(thousands: u8, hundreds: u8, tens: u8, ones: u8) -> Option<u16>
    ensures { Reads four_digits 9999 (thousands ∷ hundreds ∷ tens ∷ ones ∷ []) result }
{
    let high = read_two(thousands, hundreds)?;
    let low = read_two(tens, ones)?;
    Some(100 * u16::from(high) + u16::from(low))
}

// ASCII bytes as text.
pub(crate) fn ascii(bytes: &[u8]) -> &str
    requires { IsAscii bytes.now }
    ensures { result.now ≡ bytes.now }
{
    from_utf8(bytes).unwrap()
}
