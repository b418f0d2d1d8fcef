// Figures of the calendar that were worked by hand.
ghost use Rattle.std.specs.Prelude.{◌≡◌};
ghost use Rattle.calendar.specs.Weekdays.{weekday_number};
ghost use Rattle.calendar.specs.Worked.{CalendarFacts};

use super::days::Day;
use super::months::Month;
use super::weekdays::Weekday;

// The definitions give the worked figures, and so does the code:
// the first day of March 2016, the length of February 2016, the month of day 10957 and the weekday of day 1000.
#[tactic(auto, using(crate::proofs::Facts::calendar_facts))]
pub fn calendar_facts() -> (Day, u16, Month, Weekday)
    ensures figures { CalendarFacts }
    ensures march { result.0.number ≡ 425 }
    ensures february { result.1 ≡ 29 }
    ensures last { result.2.number ≡ 359 }
    ensures wednesday { weekday_number result.3 ≡ 3 }
{
    let march = Month { number: 14 };
    let february = Month { number: 13 };
    let last = Day { number: 10957 };
    (
        march.first_day(),
        february.length(),
        last.month(),
        Weekday::of(1000),
    )
}
