// The days of the week.
ghost use Rattle.std.specs.Prelude.{◌≡◌};
ghost use Rattle.calendar.specs.Weekdays.{weekday_number, weekday_of, monday_to_friday};

#[derive(Clone, Copy, PartialEq, Eq, Debug)]
pub enum Weekday {
    Sunday,
    Monday,
    Tuesday,
    Wednesday,
    Thursday,
    Friday,
    Saturday,
}

impl Weekday {
    // The day of the week on which the day falls that has this number, be it in the calendar or not.
    // Computed, and no conversion of a value; the language has none from a number to a case.
    pub fn of(day: u16) -> Weekday
        ensures { weekday_number result ≡ weekday_of day }
    {
        match (u32::from(day) + 4) % 7 {
            0 => Weekday::Sunday,
            1 => Weekday::Monday,
            2 => Weekday::Tuesday,
            3 => Weekday::Wednesday,
            4 => Weekday::Thursday,
            5 => Weekday::Friday,
            _ => Weekday::Saturday,
        }
    }

    pub fn is_monday_to_friday(self) -> bool
        ensures { result ≡ monday_to_friday (weekday_number self) }
    {
        !matches!(self, Weekday::Saturday | Weekday::Sunday)
    }
}
