use calendar::{Day, Moment, Month, Quarter, Weekday};
use std::test::Fail;

// The tables compare numbers, since `Day::new` gives an `Option` too, and a wrong row would pass as `None` on both sides.
fn day(text: &str) -> Option<u16> {
    Day::read(text.as_bytes()).map(|day| day.number())
}

fn month(text: &str) -> Option<u16> {
    Month::read(text.as_bytes()).map(|month| month.number())
}

fn quarter(text: &str) -> Option<u8> {
    Quarter::read(text.as_bytes()).map(|quarter| quarter.number())
}

#[test]
fn dates_are_read(rt: HostRuntime) {
    let dates = [
        ("2015-01-01", 0u16),
        ("2015-01-31", 30),
        ("2015-02-01", 31),
        ("2016-02-29", 424),
        ("2016-03-01", 425),
        ("2017-09-27", 1000),
        ("2026-02-05", 4053),
        ("2044-12-31", 10957),
    ];
    for (text, number) in dates {
        assert_eq!(rt; day(text), Some(number), "{}", text);
    }
}

#[test]
fn other_texts_are_no_dates(rt: HostRuntime) {
    let texts = [
        "",
        "2026-02-30",
        "2026-04-31",
        "2026-2-5",
        "2014-12-31",
        "2045-01-01",
        "2100-02-29",
        "2026-13-01",
        "2026-00-10",
        "2026-01-00",
        "2026-01-32",
        "2026-01-011",
        "2026/01/01",
        "2026-01/01",
        "20260-1-01",
        "2o26-01-01",
        "2026-01-0x",
        "2026-01- 1",
        "2026-01",
    ];
    for text in texts {
        assert_eq!(rt; day(text), None, "{}", text);
    }
}

// The last day of February is the 29th in every fourth year from 2016, and the 28th in the others.
#[test]
fn leap_days(rt: HostRuntime) -> Result<(), Fail> {
    for year in 2015..2045u16 {
        let number = 12 * (year - 2015) + 1;
        let february = Month::new(number).ok_or("no such month")?;
        let last = if year % 4 == 0 { 29 } else { 28 };
        assert_eq!(rt; february.length(), last, "{}", year);

        let [a, b, c, d, e, f, g] = february.text();
        let read = Day::read(&[a, b, c, d, e, f, g, b'-', b'2', b'9']);
        assert_eq!(rt; read.is_some(), last == 29, "{}", year);
    }
    Ok(())
}

#[test]
fn every_day_is_read_back(rt: HostRuntime) -> Result<(), Fail> {
    for number in 0..10958u16 {
        let day = Day::new(number).ok_or("no such day")?;
        assert_eq!(rt; day.number(), number);
        assert_eq!(rt; Day::read(&day.text()), Some(day));
    }
    assert_eq!(rt; Day::new(10958), None);
    Ok(())
}

// The months follow one another without a gap, to the end of 2044.
#[test]
fn every_month_is_read_back(rt: HostRuntime) -> Result<(), Fail> {
    let mut next = 0u16;
    for number in 0..360u16 {
        let month = Month::new(number).ok_or("no such month")?;
        assert_eq!(rt; month.number(), number);
        assert_eq!(rt; Month::read(&month.text()), Some(month));
        assert_eq!(rt; month.first_day().number(), next, "{}", number);
        assert_eq!(rt; month.first_day().month().number(), number);
        assert_eq!(rt; month.first_day().day_of_month(), 1);
        assert_eq!(rt; month.year(), 2015 + number / 12);
        next = next.saturating_add(month.length());
    }
    assert_eq!(rt; next, 10958);
    assert_eq!(rt; Month::new(360), None);
    Ok(())
}

#[test]
fn months_are_read(rt: HostRuntime) {
    assert_eq!(rt; month("2015-01"), Some(0));
    assert_eq!(rt; month("2026-02"), Some(133));
    assert_eq!(rt; month("2044-12"), Some(359));
    for text in [
        "", "2014-12", "2045-01", "2026-13", "2026-00", "2026-2", "2026-022", "2026/02", "202a-02",
    ] {
        assert_eq!(rt; month(text), None, "{}", text);
    }
}

#[test]
fn every_quarter_is_read_back(rt: HostRuntime) -> Result<(), Fail> {
    for number in 0..96u8 {
        let quarter = Quarter::new(number).ok_or("no such quarter")?;
        assert_eq!(rt; quarter.number(), number);
        assert_eq!(rt; Quarter::read(&quarter.text()), Some(quarter));
    }
    assert_eq!(rt; Quarter::new(96), None);
    Ok(())
}

#[test]
fn times_are_read(rt: HostRuntime) {
    assert_eq!(rt; quarter("00:00"), Some(0));
    assert_eq!(rt; quarter("10:00"), Some(40));
    assert_eq!(rt; quarter("16:45"), Some(67));
    assert_eq!(rt; quarter("23:45"), Some(95));
    for text in [
        "", "24:00", "12:07", "7:00", "07:60", "07:0", "07:000", "07.00", "0a:00", "99:99",
    ] {
        assert_eq!(rt; quarter(text), None, "{}", text);
    }
}

#[test]
fn weekdays(rt: HostRuntime) {
    assert_eq!(rt; Weekday::of(0), Weekday::Thursday);
    assert_eq!(rt; Weekday::of(1000), Weekday::Wednesday);
    assert_eq!(rt; Weekday::of(u16::MAX), Weekday::Friday);
    let week = [true, true, false, false, true, true, true];
    for (day, works) in (0..7u16).zip(week) {
        assert_eq!(rt; Weekday::of(day).is_monday_to_friday(), works, "{}", day);
    }
}

#[test]
fn moments(rt: HostRuntime) {
    let moment = Moment {
        day: 10957,
        quarter: 95,
    };
    assert_eq!(rt; moment.count(), 1_051_967);
    assert!(rt; moment.in_range());
    assert!(rt;
        !Moment {
            day: 10958,
            quarter: 0,
        }
        .in_range()
    );
    assert!(rt;
        !Moment {
            day: 0,
            quarter: 96,
        }
        .in_range()
    );
    assert_eq!(rt;
        Moment {
            day: u16::MAX,
            quarter: u8::MAX,
        }
        .count(),
        6_291_615
    );
}

#[test]
fn days_are_shown(rt: HostRuntime) -> Result<(), Fail> {
    let day = Day::new(4053).ok_or("no such day")?;
    let quarter = Quarter::new(64).ok_or("no such quarter")?;
    let text = format!(in rt.alloc(); "{day} {quarter}")?;
    assert_eq!(rt; text.as_str(), "2026-02-05 16:00");
    let wide = format!(in rt.alloc(); "{day:>12}")?;
    assert_eq!(rt; wide.as_str(), "  2026-02-05");
    Ok(())
}
