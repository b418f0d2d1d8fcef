// Every refusal, as a clerk reads it.

#![tactic(auto)]

#[cfg(test)]
mod tests {
    use refusal::Refusal;
    use std::process::Abort;
    use std::test::Fail;

    // Whether a refusal has this number and prints this line.
    fn reads(
        rt: &(impl Abort + AllocGlobal),
        refusal: Refusal,
        number: u8,
        line: &str,
    ) -> Result<(), Fail> {
        let text = format!(in rt.alloc(); "{refusal}")?;
        assert_eq!(rt; refusal.number(), number);
        assert_eq!(rt; text.as_str(), line);
        Ok(())
    }

    #[test]
    fn numbers_and_sentences(rt: HostRuntime) -> Result<(), Fail> {
        let table = [
            (
                Refusal::FirstDayTooLate,
                1,
                "refusal 1: the book's first day is later than 2044-08-26",
            ),
            (
                Refusal::NoSuchAccount,
                2,
                "refusal 2: there are only the accounts 0 to 7",
            ),
            (
                Refusal::AlreadyEnrolled,
                3,
                "refusal 3: the account is enrolled already",
            ),
            (
                Refusal::NotEnrolled,
                4,
                "refusal 4: the account is not enrolled",
            ),
            (
                Refusal::OtherProgramme,
                5,
                "refusal 5: the account is enrolled in another programme",
            ),
            (
                Refusal::OutOfRange,
                6,
                "refusal 6: capacity, reduction, hours, price or a figure is outside its range",
            ),
            (
                Refusal::DayOutsideBook,
                7,
                "refusal 7: the day lies outside the book",
            ),
            (
                Refusal::UnknownLetter,
                8,
                "refusal 8: a day kind is n, o or m",
            ),
            (
                Refusal::KindAlreadyFiled,
                9,
                "refusal 9: the day's kind is filed already",
            ),
            (
                Refusal::PriceTooHigh,
                10,
                "refusal 10: a price is at most 10.00 dollars per kWh",
            ),
            (
                Refusal::MomentOutOfRange,
                11,
                "refusal 11: the moment has no such day or quarter",
            ),
            (
                Refusal::OfferTooLate,
                12,
                "refusal 12: the offer came too late for its day",
            ),
            (
                Refusal::NoticeStands,
                13,
                "refusal 13: an event stands on that day already",
            ),
            (
                Refusal::DayWithoutKind,
                14,
                "refusal 14: the day has no kind yet",
            ),
            (
                Refusal::NoBusinessDay,
                15,
                "refusal 15: the day is no business day",
            ),
            (
                Refusal::OutOfSeason,
                16,
                "refusal 16: the programme has no events in that month of the year",
            ),
            (
                Refusal::PassesMidnight,
                17,
                "refusal 17: the event would pass midnight",
            ),
            (
                Refusal::NoticeTooLate,
                18,
                "refusal 18: the notice is neither early nor taken late",
            ),
            (
                Refusal::CapPassed,
                19,
                "refusal 19: the month's hours pass the programme's cap",
            ),
            (
                Refusal::NothingToWithdraw,
                20,
                "refusal 20: no notice stands that could be withdrawn",
            ),
            (
                Refusal::MonthOutsideBook,
                21,
                "refusal 21: the month does not lie wholly in the book",
            ),
            (
                Refusal::BufferTooShort,
                22,
                "refusal 22: a statement needs a buffer of 2,048 bytes",
            ),
            (
                Refusal::KindLacking { day: 4053 },
                23,
                "refusal 23: a day that may be a baseline day has no kind: 2026-02-05",
            ),
            (
                Refusal::TooFewBaselineDays { event_day: 4053 },
                24,
                "refusal 24: the book has too few baseline days before the event of 2026-02-05",
            ),
            (
                Refusal::ReadingAbsent {
                    day: 4053,
                    quarter: 64,
                },
                25,
                "refusal 25: a reading is absent: 2026-02-05 at 16:00",
            ),
            (
                Refusal::TableMisfit,
                26,
                "refusal 26: the table's memory, accounts and days do not fit each other",
            ),
            (
                Refusal::OutsideTable,
                27,
                "refusal 27: the account or the day lies outside the table",
            ),
            (
                Refusal::NumberUnlawful,
                28,
                "refusal 28: a filed number is neither a reading up to 200,000,000 W nor the mark for absent",
            ),
            (
                Refusal::HeadCut { offset: 75 },
                29,
                "refusal 29: the file ends in the first 15 bytes of a record, which begins at byte 75",
            ),
            (
                Refusal::RecordOutOfRange { offset: 75 },
                30,
                "refusal 30: a record's account or day is out of range, which begins at byte 75",
            ),
            (
                Refusal::RecordOutOfOrder { offset: 75 },
                31,
                "refusal 31: a record does not come after the one before, which begins at byte 75",
            ),
            (
                Refusal::EmptyMap { offset: 75 },
                32,
                "refusal 32: a record announces no reading, which begins at byte 75",
            ),
            (
                Refusal::ReadingsCut { offset: 75 },
                33,
                "refusal 33: the file ends in the readings of a record, which begins at byte 75",
            ),
            (
                Refusal::ReadingTooHigh { offset: 75 },
                34,
                "refusal 34: a reading is above 200,000,000 W, which begins at byte 75",
            ),
            (
                Refusal::RecordTooLong,
                35,
                "refusal 35: the buffer ends before the record would",
            ),
            (
                Refusal::ReadingBeyondMap,
                36,
                "refusal 36: the record has all its readings already",
            ),
            (
                Refusal::ReadingsLacking,
                37,
                "refusal 37: the record was finished before all its readings came, and is given up",
            ),
            (
                Refusal::GroupMisfit,
                38,
                "refusal 38: a group is an account 0 to 7 over two or more other accounts",
            ),
        ];
        for (refusal, number, line) in table {
            reads(&rt, refusal, number, line)?;
        }
        Ok(())
    }

    // A place that the calendar does not have is told by its number.
    #[test]
    fn places_outside_the_calendar(rt: HostRuntime) -> Result<(), Fail> {
        let refusal = Refusal::ReadingAbsent {
            day: 20000,
            quarter: 200,
        };
        reads(
            &rt,
            refusal,
            25,
            "refusal 25: a reading is absent: day 20000 at quarter 200",
        )
    }
}
