// Amounts of worked examples.

use crate::events::{ECONOMIC, RELIABLE};
use settlement::{Totals, settle_month};
use sheet::Sheet;
use std::alloc::Global;
use std::test::Fail;

fn settled(heap: Global, text: &[u8]) -> Result<Totals, Fail> {
    Sheet::read(heap, text)
        .and_then(|sheet| sheet.settle())
        .map_err(Fail::new)
}

// A saving, as the baseline to a load of 0, and what it pays at 6.00 dollars.
struct Case {
    notice: &'static str,
    saving: u64,
    credit: u64,
}

const CASES: [Case; 9] = [
    Case {
        notice: "early",
        saving: 28_800_000,
        credit: 9504,
    },
    Case {
        notice: "early",
        saving: 28_800_001,
        credit: 8640,
    },
    Case {
        notice: "early",
        saving: 19_200_000,
        credit: 6336,
    },
    Case {
        notice: "early",
        saving: 19_199_999,
        credit: 5760,
    },
    Case {
        notice: "early",
        saving: 14_400_000,
        credit: 4320,
    },
    Case {
        notice: "early",
        saving: 14_399_999,
        credit: 0,
    },
    Case {
        notice: "late",
        saving: 14_399_999,
        credit: 5184,
    },
    Case {
        notice: "late",
        saving: 1_600_000,
        credit: 576,
    },
    Case {
        notice: "late",
        saving: 1_599_999,
        credit: 0,
    },
];

#[test]
fn economic_events_pay(rt: HostRuntime) -> Result<(), Fail> {
    let heap = rt.alloc();
    for case in &CASES {
        let text = format!(in heap;
            "{ECONOMIC}event 2026-07-06 13:00 {} 6.00 {} 0\n",
            case.notice, case.saving
        )?;
        assert_eq!(rt; settled(heap, text.as_bytes())?.credits, case.credit);
    }
    Ok(())
}

const FOUR_EVENTS: &str =
    "event 2026-07-06 13:00 early 6.00 700kW 300kW\nevent 2026-07-07 13:00 early 6.00 700kW 300kW\nevent 2026-07-08 13:00 early 6.00 700kW 300kW\nevent 2026-07-09 13:00 early 6.00 700kW 300kW\n";

// Seven events of 400 kW; and four of 400, two of 300 and one of 40.
#[test]
fn reliable_months_pay(rt: HostRuntime) -> Result<(), Fail> {
    let heap = rt.alloc();
    let all = format!(in heap;
        "{RELIABLE}{FOUR_EVENTS}event 2026-07-10 13:00 early 6.00 700kW 300kW\nevent 2026-07-13 13:00 early 6.00 700kW 300kW\nevent 2026-07-14 13:00 early 6.00 700kW 300kW\n"
    )?;
    assert_eq!(rt;
        settled(heap, all.as_bytes())?,
        Totals {
            events: 7,
            missed: 0,
            basic: 21_600,
            credits: 67_200,
            surcharges: 0,
        }
    );
    let some = format!(in heap;
        "{RELIABLE}{FOUR_EVENTS}event 2026-07-10 13:00 early 6.00 700kW 400kW\nevent 2026-07-13 13:00 early 6.00 700kW 400kW\nevent 2026-07-14 13:00 early 6.00 700kW 660kW\n"
    )?;
    assert_eq!(rt;
        settled(heap, some.as_bytes())?,
        Totals {
            events: 7,
            missed: 1,
            basic: 15_429,
            credits: 52_800,
            surcharges: 3120,
        }
    );
    Ok(())
}

// A month without events, whose list names no type: nothing is due under economic bidding, and no event has a line.
#[test]
fn a_month_without_events(rt: HostRuntime) -> Result<(), Fail> {
    let sheet = Sheet::read(rt.alloc(), ECONOMIC.as_bytes()).map_err(Fail::new)?;
    assert_eq!(rt; sheet.line_of(Some(0)), 0);
    assert_eq!(rt; sheet.noted_line(Some(0)), None);
    assert_eq!(rt;
        settle_month(sheet.header.agreement, &[]),
        Ok(Totals {
            events: 0,
            missed: 0,
            basic: 0,
            credits: 0,
            surcharges: 0,
        })
    );
    Ok(())
}

// A demand in kW and the figure itself give the same amounts: 80 readings of 400,125 W and 16 of 200,500 W, added up;
// five largest readings of 700,125 W and one of 300,000 W.
#[test]
fn notations_agree(rt: HostRuntime) -> Result<(), Fail> {
    let heap = rt.alloc();
    let means = format!(in heap;
        "{ECONOMIC}event 2026-07-06 13:00 early 5.55 400.125kW 200.5kW\n"
    )?;
    let sums = format!(in heap; "{ECONOMIC}event 2026-07-06 13:00 early 5.55 32010000 3208000\n")?;
    let economic = Totals {
        events: 1,
        missed: 0,
        basic: 0,
        credits: 4432,
        surcharges: 0,
    };
    assert_eq!(rt; settled(heap, means.as_bytes())?, economic);
    assert_eq!(rt; settled(heap, sums.as_bytes())?, economic);
    let means = format!(in heap; "{RELIABLE}event 2026-07-06 13:00 early 5.55 700.125kW 300kW\n")?;
    let peaks = format!(in heap; "{RELIABLE}event 2026-07-06 13:00 early 5.55 3500625 300000\n")?;
    let reliable = Totals {
        events: 1,
        missed: 0,
        basic: 21_600,
        credits: 8883,
        surcharges: 0,
    };
    assert_eq!(rt; settled(heap, means.as_bytes())?, reliable);
    assert_eq!(rt; settled(heap, peaks.as_bytes())?, reliable);
    Ok(())
}
