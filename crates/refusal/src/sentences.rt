// What a clerk reads: the number, then a sentence, then the places.

use crate::refusals::Refusal;
use calendar::{Day, Quarter};
use std::fmt;

// What is refused, in words; the places follow.
fn sentence(refusal: Refusal) -> &'static str {
    match refusal {
        Refusal::FirstDayTooLate => "the book's first day is later than 2044-08-26",
        Refusal::NoSuchAccount => "there are only the accounts 0 to 7",
        Refusal::AlreadyEnrolled => "the account is enrolled already",
        Refusal::NotEnrolled => "the account is not enrolled",
        Refusal::OtherProgramme => "the account is enrolled in another programme",
        Refusal::OutOfRange => "capacity, reduction, hours, price or a figure is outside its range",
        Refusal::DayOutsideBook => "the day lies outside the book",
        Refusal::UnknownLetter => "a day kind is n, o or m",
        Refusal::KindAlreadyFiled => "the day's kind is filed already",
        Refusal::PriceTooHigh => "a price is at most 10.00 dollars per kWh",
        Refusal::MomentOutOfRange => "the moment has no such day or quarter",
        Refusal::OfferTooLate => "the offer came too late for its day",
        Refusal::NoticeStands => "an event stands on that day already",
        Refusal::DayWithoutKind => "the day has no kind yet",
        Refusal::NoBusinessDay => "the day is no business day",
        Refusal::OutOfSeason => "the programme has no events in that month of the year",
        Refusal::PassesMidnight => "the event would pass midnight",
        Refusal::NoticeTooLate => "the notice is neither early nor taken late",
        Refusal::CapPassed => "the month's hours pass the programme's cap",
        Refusal::NothingToWithdraw => "no notice stands that could be withdrawn",
        Refusal::MonthOutsideBook => "the month does not lie wholly in the book",
        Refusal::BufferTooShort => "a statement needs a buffer of 2,048 bytes",
        Refusal::KindLacking { .. } => "a day that may be a baseline day has no kind:",
        Refusal::TooFewBaselineDays { .. } =>
            "the book has too few baseline days before the event of",
        Refusal::ReadingAbsent { .. } => "a reading is absent:",
        Refusal::TableMisfit => "the table's memory, accounts and days do not fit each other",
        Refusal::OutsideTable => "the account or the day lies outside the table",
        Refusal::NumberUnlawful =>
            "a filed number is neither a reading up to 200,000,000 W nor the mark for absent",
        Refusal::HeadCut { .. } => "the file ends in the first 15 bytes of a record,",
        Refusal::RecordOutOfRange { .. } => "a record's account or day is out of range,",
        Refusal::RecordOutOfOrder { .. } => "a record does not come after the one before,",
        Refusal::EmptyMap { .. } => "a record announces no reading,",
        Refusal::ReadingsCut { .. } => "the file ends in the readings of a record,",
        Refusal::ReadingTooHigh { .. } => "a reading is above 200,000,000 W,",
        Refusal::RecordTooLong => "the buffer ends before the record would",
        Refusal::ReadingBeyondMap => "the record has all its readings already",
        Refusal::ReadingsLacking =>
            "the record was finished before all its readings came, and is given up",
        Refusal::GroupMisfit => "a group is an account 0 to 7 over two or more other accounts",
    }
}

// A day or a quarter as the calendar shows it, or by its number where the calendar has none such.
#[derive(Clone, Copy)]
struct Place<T> {
    shown: Option<T>,
    kind: &'static str,
    number: u16,
}

impl<T: fmt::Display> fmt::Display for Place<T> {
    fn fmt<W: fmt::Write>(&self, f: &mut fmt::Formatter<W>) -> fmt::Result {
        match &self.shown {
            Some(shown) => shown.fmt(f),
            None => write!(f, "{} {}", self.kind, self.number),
        }
    }
}

fn dated(day: u16) -> Place<Day> {
    Place {
        shown: Day::new(day),
        kind: "day",
        number: day,
    }
}

fn timed(quarter: u8) -> Place<Quarter> {
    Place {
        shown: Quarter::new(quarter),
        kind: "quarter",
        number: u16::from(quarter),
    }
}

// The places that a refusal names.
fn places<W: fmt::Write>(refusal: Refusal, f: &mut fmt::Formatter<W>) -> fmt::Result {
    match refusal {
        Refusal::KindLacking { day } | Refusal::TooFewBaselineDays { event_day: day } => write!(
            f,
            " {}",
            dated(day)
        ),
        Refusal::ReadingAbsent { day, quarter } => write!(
            f,
            " {} at {}",
            dated(day),
            timed(quarter)
        ),
        Refusal::HeadCut { offset }
        | Refusal::RecordOutOfRange { offset }
        | Refusal::RecordOutOfOrder { offset }
        | Refusal::EmptyMap { offset }
        | Refusal::ReadingsCut { offset }
        | Refusal::ReadingTooHigh { offset } => write!(f, " which begins at byte {offset}"),
        _ => Ok(()),
    }
}

impl fmt::Display for Refusal {
    fn fmt<W: fmt::Write>(&self, f: &mut fmt::Formatter<W>) -> fmt::Result {
        write!(f, "refusal {}: {}", self.number(), sentence(*self))?;
        places(*self, f)
    }
}
