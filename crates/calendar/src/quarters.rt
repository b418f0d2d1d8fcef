// The 96 quarters of an hour of a day.
ghost use Rattle.std.specs.Prelude.{◌≡◌, ◌≤◌, if◌then◌else◌, Some, None, IsAscii, nat_le};
ghost use Rattle.calendar.specs.Texts.{Reads, time_text};
ghost use Rattle.std.specs.Option.{option_map};

use super::digits::{ascii, read_two, two_digits};
use limits::QUARTERS;
use std::fmt;

// Quarter 0 begins at 00:00, and quarter 40 at 10:00.
#[derive(Clone, Copy, PartialEq, Eq, Debug)]
pub struct Quarter {
    number: u8,
    ghost within: { number ≤ 95 },
}

impl Quarter {
    // `as` in a constant, where no conversion can be called
    pub const LAST: u8 = QUARTERS as u8 - 1;

    // `new`, `number`, `read` and `text` are as a day's, for the reasons that stand there.
    pub fn new(number: u8) -> Option<Quarter>
        ensures { option_map (λ q. q.number) result ≡ (if nat_le number 95 then Some number else None) }
    {
        if number <= Self::LAST {
            Some(Quarter { number })
        } else {
            None
        }
    }

    pub fn number(self) -> u8
        ensures { result ≡ self.number }
    {
        self.number
    }

    // The quarter's beginning, as 16:45.
    pub fn text(self) -> [u8; 5]
        ensures value { result ≡ time_text self.number }
        ensures ascii { IsAscii result }
    {
        let [a, b] = two_digits(self.number / 4);
        let [c, d] = two_digits(self.number % 4 * 15);
        [a, b, b':', c, d]
    }

    // The quarter that has this text, and no other text is read.
    pub fn read(text: &[u8]) -> Option<Quarter>
        ensures { Reads time_text 95 text.now (option_map (λ q. q.number) result) }
    {
        let &[a, b, b':', c, d] = text else {
            return None;
        };
        let hour = read_two(a, b)?;
        let minute = read_two(c, d)?;
        // by `if`, as in a day's `new`
        if hour < 24 && minute < 60 && minute % 15 == 0 {
            Some(Quarter {
                number: 4 * hour + minute / 15,
            })
        } else {
            None
        }
    }
}

impl fmt::Display for Quarter {
    ghost output = { λ q. Some (time_text q.number) };

    fn fmt<W: fmt::Write>(&self, f: &mut fmt::Formatter<W>) -> fmt::Result {
        f.pad(ascii(&self.text()))
    }
}
