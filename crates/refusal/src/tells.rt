// A refusal's number and places.

ghost use Rattle.std.specs.Prelude.{◌≡◌};
ghost use Rattle.refusal.specs.Answers.{answer_of, at_byte, on_day, plain as plain_of};

use crate::refusals::{Answer, Refusal};

fn plain(number: u8) -> Answer
    ensures { result ≡ plain_of number }
{
    Answer {
        number,
        ..Answer::default()
    }
}

fn on_day(number: u8, day: u16) -> Answer
    ensures { result ≡ on_day number day }
{
    Answer {
        number,
        day,
        ..Answer::default()
    }
}

fn at_byte(number: u8, offset: usize) -> Answer
    ensures { result ≡ at_byte number offset }
{
    Answer {
        number,
        offset,
        ..Answer::default()
    }
}

impl Refusal {
    // The number and the places, 0 where unused: a rule of the project, by which every check's answer is promised.
    pub fn answer(self) -> Answer
        ensures { result ≡ answer_of self }
    {
        match self {
            Refusal::FirstDayTooLate => plain(1),
            Refusal::NoSuchAccount => plain(2),
            Refusal::AlreadyEnrolled => plain(3),
            Refusal::NotEnrolled => plain(4),
            Refusal::OtherProgramme => plain(5),
            Refusal::OutOfRange => plain(6),
            Refusal::DayOutsideBook => plain(7),
            Refusal::UnknownLetter => plain(8),
            Refusal::KindAlreadyFiled => plain(9),
            Refusal::PriceTooHigh => plain(10),
            Refusal::MomentOutOfRange => plain(11),
            Refusal::OfferTooLate => plain(12),
            Refusal::NoticeStands => plain(13),
            Refusal::DayWithoutKind => plain(14),
            Refusal::NoBusinessDay => plain(15),
            Refusal::OutOfSeason => plain(16),
            Refusal::PassesMidnight => plain(17),
            Refusal::NoticeTooLate => plain(18),
            Refusal::CapPassed => plain(19),
            Refusal::NothingToWithdraw => plain(20),
            Refusal::MonthOutsideBook => plain(21),
            Refusal::BufferTooShort => plain(22),
            Refusal::KindLacking { day } => on_day(23, day),
            Refusal::TooFewBaselineDays { event_day } => on_day(24, event_day),
            Refusal::ReadingAbsent { day, quarter } => Answer {
                number: 25,
                day,
                quarter,
                ..Answer::default()
            },
            Refusal::TableMisfit => plain(26),
            Refusal::OutsideTable => plain(27),
            Refusal::NumberUnlawful => plain(28),
            Refusal::HeadCut { offset } => at_byte(29, offset),
            Refusal::RecordOutOfRange { offset } => at_byte(30, offset),
            Refusal::RecordOutOfOrder { offset } => at_byte(31, offset),
            Refusal::EmptyMap { offset } => at_byte(32, offset),
            Refusal::ReadingsCut { offset } => at_byte(33, offset),
            Refusal::ReadingTooHigh { offset } => at_byte(34, offset),
            Refusal::RecordTooLong => plain(35),
            Refusal::ReadingBeyondMap => plain(36),
            Refusal::ReadingsLacking => plain(37),
            Refusal::GroupMisfit => plain(38),
        }
    }

    // The number that the rules fix.
    pub fn number(self) -> u8
        ensures { result ≡ (answer_of self).number }
    {
        self.answer().number
    }
}
