// The refusals, in the order of their numbers.

#[derive(Clone, Copy, PartialEq, Eq, Debug)]
pub enum Refusal {
    // the book's first day is above 10,830
    FirstDayTooLate,
    // the account is above 7
    NoSuchAccount,
    AlreadyEnrolled,
    NotEnrolled,
    // the account is enrolled in a programme with another code
    OtherProgramme,
    // capacity, reduction, hours, price or a figure outside its range
    OutOfRange,
    DayOutsideBook,
    // a day kind's letter is none of n, o, m
    UnknownLetter,
    KindAlreadyFiled,
    // a price above 1,000 hundredths of a dollar
    PriceTooHigh,
    // a moment's day is above 10,957 or its quarter above 95
    MomentOutOfRange,
    OfferTooLate,
    NoticeStands,
    DayWithoutKind,
    NoBusinessDay,
    // the calendar month is none of the programme's
    OutOfSeason,
    PassesMidnight,
    // the notice is neither early nor taken late
    NoticeTooLate,
    // the month's hours with these pass the programme's cap
    CapPassed,
    NothingToWithdraw,
    MonthOutsideBook,
    // a statement's buffer is below 2,048 bytes
    BufferTooShort,
    // a Monday to Friday that the baseline asks for has no kind
    KindLacking { day: u16 },
    // the book begins before enough baseline days are found
    TooFewBaselineDays { event_day: u16 },
    ReadingAbsent { day: u16, quarter: u8 },
    // a table's memory, accounts or days do not fit each other or their ranges
    TableMisfit,
    OutsideTable,
    // a filed number is neither a lawful reading nor the mark for absent
    NumberUnlawful,
    // a packed file ends in a record's first 15 bytes
    HeadCut { offset: usize },
    // a record's account or day is out of range
    RecordOutOfRange { offset: usize },
    // a record does not come after the last whole record
    RecordOutOfOrder { offset: usize },
    EmptyMap { offset: usize },
    // a packed file ends in a record's readings
    ReadingsCut { offset: usize },
    ReadingTooHigh { offset: usize },
    // the buffer ends before the record does
    RecordTooLong,
    // a reading beyond those that the record's map announces
    ReadingBeyondMap,
    // a record was finished with readings lacking
    ReadingsLacking,
    // a group's map names the group or fewer than two members, or the group is above 7
    GroupMisfit,
}

// A refusal as the numbers that the rules and the definitions speak of: 0 where a place is unused.
#[derive(Clone, Copy, PartialEq, Eq, Default, Debug)]
pub struct Answer {
    pub number: u8,
    pub day: u16,
    pub quarter: u8,
    // where in the packed file the refused record begins
    pub offset: usize,
}
