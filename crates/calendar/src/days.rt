// The days from 2015-01-01, day 0, to 2044-12-31, day 10957.
ghost use Rattle.std.specs.Prelude.{◌≡◌, ◌+◌, ◌<◌, ◌≤◌, if◌then◌else◌, Some, None, IsAscii, nat_le};
ghost use Rattle.calendar.specs.Months.{month_length, first_day, month_of, day_of_month};
ghost use Rattle.calendar.specs.Texts.{Reads, date_text};
ghost use Rattle.calendar.specs.Weekdays.{weekday_number, weekday_of};
ghost use Rattle.std.specs.Option.{option_map};

use super::digits::{ascii, read_two, two_digits};
use super::months::{Month, first_days};
use super::weekdays::Weekday;
use std::fmt;

// `Day`, `Month` and `Quarter` are three types: each has a width, methods and a text of its own, and one `UpTo<LAST>` would share
// no more than the lines of `new` and `number`.
#[derive(Clone, Copy, PartialEq, Eq, Debug)]
pub struct Day {
    pub(crate) number: u16,
    ghost within: { number ≤ 10957 },
}

impl Day {
    pub const LAST: u16 = 10957;

    // An `Option`, as `NonZero::new` answers: that the number is too high is all that there is to say.
    // By `if`: a closure for `then` would need the range of the day that it makes as a clause of its own.
    pub fn new(number: u16) -> Option<Day>
        ensures { option_map (λ d. d.number) result ≡ (if nat_le number 10957 then Some number else None) }
    {
        if number <= Self::LAST {
            Some(Day { number })
        } else {
            None
        }
    }

    // By its name, which says what number it is, where `u16::from(day)` would not.
    pub fn number(self) -> u16
        ensures { result ≡ self.number }
    {
        self.number
    }

    pub fn weekday(self) -> Weekday
        ensures { weekday_number result ≡ weekday_of self.number }
    {
        Weekday::of(self.number)
    }

    // The month whose days include this one: the last that begins on it or before.
    pub fn month(self) -> Month
        ensures value { result.number ≡ month_of self.number }
        ensures begun { first_day result.number ≤ self.number }
        ensures ahead { self.number < first_day (result.number + 1) }
        ensures inside { self.number < first_day result.number + month_length result.number }
    {
        let begun = first_days().partition_point(|first| *first <= self.number);
        // `as` where a proof shows that nothing is lost: `u16::try_from(..).unwrap()` would ask for the same proof and say no more
        Month {
            number: begun as u16 - 1,
        }
    }

    // The day's place in its month, from 1.
    pub fn day_of_month(self) -> u16
        ensures value { result ≡ day_of_month self.number }
        ensures within { (1 ≤ result) × (result ≤ month_length (month_of self.number)) }
    {
        let passed = self.number - self.month().first_day().number;
        passed + 1
    }

    // The day as 2026-02-05, in bytes in place, so that no text asks for memory and `Display` can pad it.
    pub fn text(self) -> [u8; 10]
        ensures value { result ≡ date_text self.number }
        ensures ascii { IsAscii result }
    {
        let [a, b, c, d, e, f, g] = self.month().text();
        // `as`, as in `month`
        let [h, i] = two_digits(self.day_of_month() as u8);
        [a, b, c, d, e, f, g, b'-', h, i]
    }

    // The day that has this text, and no other text is read. Any bytes may come, where a `FromStr` would take text alone.
    pub fn read(text: &[u8]) -> Option<Day>
        ensures { Reads date_text 10957 text.now (option_map (λ d. d.number) result) }
    {
        let [month @ .., b'-', tens, ones] = text else {
            return None;
        };
        let month = Month::read(month)?;
        let day = u16::from(read_two(*tens, *ones)?);
        // by `if`, as in `new`
        if (1..=month.length()).contains(&day) {
            Some(Day {
                number: month.first_day().number + day - 1,
            })
        } else {
            None
        }
    }
}

impl fmt::Display for Day {
    ghost output = { λ d. Some (date_text d.number) };

    fn fmt<W: fmt::Write>(&self, f: &mut fmt::Formatter<W>) -> fmt::Result {
        f.pad(ascii(&self.text()))
    }
}
