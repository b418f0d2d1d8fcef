// The fixed figures of a programme.

// How the readings of a window make one figure: added up, or the largest of them.
#[derive(Clone, Copy, PartialEq, Eq, Debug)]
pub enum Fold {
    Sum,
    Peak,
}

#[derive(Clone, Copy, PartialEq, Eq, Debug)]
pub struct Figures {
    // the letter that stands for the programme, as a byte, one fixed figure among the others; elsewhere a programme is a `Code`
    pub code: u8,
    // how many business days make the baseline
    pub baseline_days: u8,
    // the lowest reduction that may be agreed
    pub lowest_kw: u32,
    // hours[h] says whether events of h hours may be agreed
    pub hours: [bool; 7],
    // the calendar months, 1 to 12, in which events may lie
    pub first_month: u8,
    pub last_month: u8,
    // the most hours of events in one month
    pub cap_hours: u8,
    // an offer must come before this quarter of the day before the event
    pub deadline: u8,
    // whether notices from 18:00 of the day before on are taken
    pub late_notices: bool,
    pub fold: Fold,
}
