// Moments: a day and a quarter of an hour.
ghost use Rattle.std.specs.Prelude.{◌≡◌};
ghost use Rattle.calendar.specs.Moments.{moment_count, in_calendar};

use super::days::Day;
use super::quarters::Quarter;
use limits::QUARTERS;

// A pair of any two numbers: `in_range` says whether they are a moment of the calendar.
#[derive(Clone, Copy, PartialEq, Eq, Debug)]
pub struct Moment {
    pub day: u16,
    pub quarter: u8,
}

impl Moment {
    // The quarters of an hour from the start of day 0.
    pub fn count(self) -> u32
        ensures { result ≡ moment_count self.day self.quarter }
    {
        // `as` of the constant, which is 96, as in `Quarter::LAST`
        QUARTERS as u32 * u32::from(self.day) + u32::from(self.quarter)
    }

    pub fn in_range(self) -> bool
        ensures { result ≡ in_calendar self.day self.quarter }
    {
        self.day <= Day::LAST && self.quarter <= Quarter::LAST
    }
}
