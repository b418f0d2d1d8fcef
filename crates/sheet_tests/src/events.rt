// Events that are refused, and where.

use crate::headers::says;
use std::alloc::Global;
use std::fmt::Write;
use std::test::Fail;

pub const ECONOMIC: &str =
    "programme E\naccount 1\nmonth 2026-07\ncapacity 500\nreduction 300\nhours 4\n";

pub const RELIABLE: &str =
    "programme R\naccount 3\nmonth 2026-07\ncapacity 800\nreduction 300\nhours 4\n";

// The same header in a month without events and in the first with some: a case holds a constant text, so each is written out.
const RELIABLE_APRIL: &str =
    "programme R\naccount 3\nmonth 2026-04\ncapacity 800\nreduction 300\nhours 4\n";

const RELIABLE_MAY: &str =
    "programme R\naccount 3\nmonth 2026-05\ncapacity 800\nreduction 300\nhours 4\n";

struct Case {
    header: &'static str,
    events: &'static str,
    says: &'static str,
}

// The header has six lines, so the first event stands on line 7.
const CASES: [Case; 37] = [
    Case {
        header: ECONOMIC,
        events: "event 2026-07-06 13:00 early 6.00 700kW 300kW",
        says: "settled",
    },
    Case {
        header: ECONOMIC,
        events: "event 2026-02-30 13:00 early 6.00 0 0",
        says: "line 7: 2026-02-30 is no date (like 2026-02-05, from 2015-01-01 to 2044-12-31)",
    },
    Case {
        header: ECONOMIC,
        events: "event 2026-08-03 13:00 early 6.00 0 0",
        says: "line 7: 2026-08-03 lies outside the sheet's month",
    },
    Case {
        header: ECONOMIC,
        events: "event 2026-06-30 13:00 early 6.00 0 0",
        says: "line 7: 2026-06-30 lies outside the sheet's month",
    },
    Case {
        header: ECONOMIC,
        events: "event 2026-07-06 13:10 early 6.00 0 0",
        says: "line 7: 13:10 is no quarter of an hour (like 13:15)",
    },
    Case {
        header: ECONOMIC,
        events: "event 2026-07-06 13:00 soon 6.00 0 0",
        says: "line 7: soon is neither early nor late",
    },
    Case {
        header: ECONOMIC,
        events: "event 2026-07-06 13:00 early six 0 0",
        says: "line 7: six is no number",
    },
    Case {
        header: ECONOMIC,
        events: "event 2026-07-06 13:00 early 6.005 0 0",
        says: "line 7: 6.005 has more than two decimals",
    },
    Case {
        header: ECONOMIC,
        events: "event 2026-07-06 13:00 early 10.00 0 0",
        says: "settled",
    },
    Case {
        header: ECONOMIC,
        events: "event 2026-07-06 13:00 early 10.01 0 0",
        says: "line 7: refusal 10: a price is at most 10.00 dollars per kWh",
    },
    Case {
        header: ECONOMIC,
        events: "event 2026-07-06 13:00 early 655.36 0 0",
        says: "line 7: refusal 10: a price is at most 10.00 dollars per kWh",
    },
    Case {
        header: ECONOMIC,
        events: "event 2026-07-06 13:00 early 6.00 0.0001kW 0",
        says: "line 7: 0.0001 has more than three decimals",
    },
    Case {
        header: ECONOMIC,
        events: "event 2026-07-06 13:00 early 6.00 kW 0",
        says: "line 7: \"\" is no number",
    },
    Case {
        header: ECONOMIC,
        events: "event 2026-07-06 13:00 early 6.00 0.5 0",
        says: "line 7: 0.5 must be a whole number",
    },
    Case {
        header: ECONOMIC,
        events: "event 2026-07-06 13:00 early 6.00 0",
        says: "line 7: \"event\" takes DATE START early|late PRICE BASELINE LOAD; 5 given",
    },
    Case {
        header: ECONOMIC,
        events: "event 2026-07-06 13:00 early 6.00 0 0 0",
        says: "line 7: \"event\" takes DATE START early|late PRICE BASELINE LOAD; 7 given",
    },
    Case {
        header: ECONOMIC,
        events: "event 2026-07-06 13:00 early 6.00 0 0\nhours 4",
        says: "line 8: \"hours\" after the first event",
    },
    // figures that 80 readings of a baseline and 16 of an event cannot give
    Case {
        header: ECONOMIC,
        events: "event 2026-07-06 13:00 early 6.00 16000000000 3200000000",
        says: "settled",
    },
    Case {
        header: ECONOMIC,
        events: "event 2026-07-06 13:00 early 6.00 16000000001 0",
        says: "line 7: refusal 6: capacity, reduction, hours, price or a figure is outside its range",
    },
    Case {
        header: ECONOMIC,
        events: "event 2026-07-06 13:00 early 6.00 0 200000.001kW",
        says: "line 7: refusal 6: capacity, reduction, hours, price or a figure is outside its range",
    },
    Case {
        header: ECONOMIC,
        events: "event 2026-07-06 13:00 early 6.00 999999999999999kW 0",
        says: "line 7: refusal 6: capacity, reduction, hours, price or a figure is outside its range",
    },
    Case {
        header: ECONOMIC,
        events: "event 2026-07-06 13:00 early 6.00 0 0\n\nevent 2026-07-06 18:00 early 6.00 0 0",
        says: "line 9: refusal 13: an event stands on that day already",
    },
    Case {
        header: ECONOMIC,
        events: "event 2026-07-04 13:00 early 6.00 0 0",
        says: "line 7: refusal 15: the day is no business day",
    },
    Case {
        header: RELIABLE_APRIL,
        events: "event 2026-04-06 13:00 early 6.00 0 0",
        says: "line 7: refusal 16: the programme has no events in that month of the year",
    },
    Case {
        header: ECONOMIC,
        events: "event 2026-07-06 20:15 early 6.00 0 0",
        says: "line 7: refusal 17: the event would pass midnight",
    },
    Case {
        header: RELIABLE,
        events: "event 2026-07-06 13:00 late 6.00 0 0",
        says: "line 7: refusal 18: the notice is neither early nor taken late",
    },
    // a Sunday
    Case {
        header: ECONOMIC,
        events: "event 2026-07-05 13:00 early 6.00 0 0",
        says: "line 7: refusal 15: the day is no business day",
    },
    // the window ends at midnight
    Case {
        header: ECONOMIC,
        events: "event 2026-07-06 20:00 early 6.00 0 0",
        says: "settled",
    },
    Case {
        header: RELIABLE_MAY,
        events: "event 2026-05-06 13:00 early 6.00 0 0",
        says: "settled",
    },
    // a word that cannot be read comes before an earlier line's refusal
    Case {
        header: ECONOMIC,
        events: "event 2026-07-04 13:00 early 6.00 0 0\nevent 2026-07-06 13:00 early six 0 0",
        says: "line 8: six is no number",
    },
    // of several words that cannot be read, the first
    Case {
        header: ECONOMIC,
        events: "event 2026-02-30 13:10 soon six x y",
        says: "line 7: 2026-02-30 is no date (like 2026-02-05, from 2015-01-01 to 2044-12-31)",
    },
    Case {
        header: ECONOMIC,
        events: "event 2026-08-03 13:10 soon six x y",
        says: "line 7: 2026-08-03 lies outside the sheet's month",
    },
    Case {
        header: ECONOMIC,
        events: "event 2026-07-06 13:10 soon six x y",
        says: "line 7: 13:10 is no quarter of an hour (like 13:15)",
    },
    Case {
        header: ECONOMIC,
        events: "event 2026-07-06 13:00 soon six x y",
        says: "line 7: soon is neither early nor late",
    },
    Case {
        header: ECONOMIC,
        events: "event 2026-07-06 13:00 early six x y",
        says: "line 7: six is no number",
    },
    Case {
        header: ECONOMIC,
        events: "event 2026-07-06 13:00 early 6.00 x y",
        says: "line 7: x is no number",
    },
    Case {
        header: ECONOMIC,
        events: "event 2026-07-06 13:00 early 6.00 0 y",
        says: "line 7: y is no number",
    },
];

#[test]
fn events_are_judged(rt: HostRuntime) -> Result<(), Fail> {
    for case in &CASES {
        let text = format!(in rt.alloc(); "{}{}\n", case.header, case.events)?;
        says(rt.alloc(), text.as_bytes(), case.says)?;
    }
    Ok(())
}

// Whether events of four hours on these days of July reach a programme's cap, and one more passes it.
fn keeps_a_cap(
    heap: Global,
    header: &str,
    notice: &str,
    days: &[&str],
    next: &str,
    refused: &str,
) -> Result<(), Fail> {
    let mut text = String::from_str(heap, header)?;
    for day in days {
        write!(text, "event 2026-07-{day} 13:00 {notice} 6.00 0 0\n")?;
    }
    says(heap, text.as_bytes(), "settled")?;
    write!(text, "event 2026-07-{next} 13:00 early 6.00 0 0\n")?;
    says(heap, text.as_bytes(), refused)
}

// Seven events of four hours reach reliable bidding's cap of 28 hours, and an eighth passes it.
#[test]
fn the_cap_is_kept(rt: HostRuntime) -> Result<(), Fail> {
    keeps_a_cap(
        rt.alloc(),
        RELIABLE,
        "early",
        &["06", "07", "08", "09", "10", "13", "14"],
        "15",
        "line 14: refusal 19: the month's hours pass the programme's cap",
    )
}

// Nine events of four hours reach economic bidding's cap of 36 hours, and a tenth passes it.
#[test]
fn the_economic_cap_is_kept(rt: HostRuntime) -> Result<(), Fail> {
    keeps_a_cap(
        rt.alloc(),
        ECONOMIC,
        "late",
        &["06", "07", "08", "09", "10", "13", "14", "15", "16"],
        "17",
        "line 16: refusal 19: the month's hours pass the programme's cap",
    )
}
