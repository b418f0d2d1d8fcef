// Headers that are refused.

use account_text::account;
use std::alloc::{AllocError, Global};
use std::test::Fail;

// What is said of a sheet: its fault, or that it is settled.
fn said(heap: Global, text: &[u8]) -> Result<String, AllocError> {
    account(heap, text).map_or_else(
        |fault| format!(in heap; "{fault}"),
        |_| String::from_str(heap, "settled"),
    )
}

// Whether this is said of a sheet, and nothing else.
pub(crate) fn says(heap: Global, text: &[u8], expected: &str) -> Result<(), Fail> {
    let answer = said(heap, text)?;
    if answer.as_str() != expected {
        return Err(Fail::new(format_args!("{answer:?} and not {expected:?}")));
    }
    Ok(())
}

struct Case {
    text: &'static str,
    says: &'static str,
}

// Whether each case's sheet is judged as the case says.
fn judges(heap: Global, cases: &[Case]) -> Result<(), Fail> {
    for case in cases {
        says(heap, case.text.as_bytes(), case.says)?;
    }
    Ok(())
}

const CASES: [Case; 24] = [
    Case {
        text: "",
        says: "the sheet is empty",
    },
    Case {
        text: "\n# nothing but a comment\n\n",
        says: "the sheet is empty",
    },
    Case {
        text: "programme E\naccount 1\nmonth 2026-07\ncapacity 500\nreduction 300\nhours 4\n",
        says: "settled",
    },
    // in any order, with tabs, comments and CR LF
    Case {
        text: "hours\t4 # each\r\nreduction 300\r\n  month 2026-07\r\naccount 1\r\ncapacity 500\r\nprogramme J",
        says: "settled",
    },
    Case {
        text: "account 1\nmonth 2026-07\ncapacity 500\nreduction 300\nhours 4\n",
        says: "the sheet has no line \"programme\"",
    },
    Case {
        text: "programme E\nmonth 2026-07\ncapacity 500\nreduction 300\nhours 4\n",
        says: "the sheet has no line \"account\"",
    },
    Case {
        text: "programme E\naccount 1\ncapacity 500\nreduction 300\nhours 4\n",
        says: "the sheet has no line \"month\"",
    },
    Case {
        text: "programme E\naccount 1\nmonth 2026-07\nreduction 300\nhours 4\n",
        says: "the sheet has no line \"capacity\"",
    },
    Case {
        text: "programme E\naccount 1\nmonth 2026-07\ncapacity 500\nhours 4\n",
        says: "the sheet has no line \"reduction\"",
    },
    Case {
        text: "programme E\naccount 1\nmonth 2026-07\ncapacity 500\nreduction 300\n",
        says: "the sheet has no line \"hours\"",
    },
    Case {
        text: "programme E\nprogramme E\n",
        says: "line 2: \"programme\" stands on line 1 already",
    },
    Case {
        text: "account 1\naccount 1\n",
        says: "line 2: \"account\" stands on line 1 already",
    },
    Case {
        text: "month 2026-07\n\nmonth 2026-07\n",
        says: "line 3: \"month\" stands on line 1 already",
    },
    Case {
        text: "capacity 500\ncapacity 500\n",
        says: "line 2: \"capacity\" stands on line 1 already",
    },
    Case {
        text: "reduction 300\nreduction 300\n",
        says: "line 2: \"reduction\" stands on line 1 already",
    },
    Case {
        text: "hours 4\nhours 4\n",
        says: "line 2: \"hours\" stands on line 1 already",
    },
    Case {
        text: "programme E\naccount 1\nmonth 2026-07\nevent 2026-07-06 13:00 early 6.00 0 0\n",
        says: "line 4: an event before the line \"capacity\"",
    },
    Case {
        text: "programme E\naccount 1\nmonht 2026-07\n",
        says: "line 3: \"monht\" is none of the words programme, account, month, capacity, reduction, hours, event",
    },
    Case {
        text: "programme X\n",
        says: "line 1: X is no programme (E for economic, J for joint, R for reliable bidding)",
    },
    Case {
        text: "programme RR\n",
        says: "line 1: RR is no programme (E for economic, J for joint, R for reliable bidding)",
    },
    Case {
        text: "month 2026-13\n",
        says: "line 1: 2026-13 is no month (like 2026-02, from 2015-01 to 2044-12)",
    },
    Case {
        text: "capacity 123456789012345678\n",
        says: "line 1: 123456789012345678 has too many digits",
    },
    Case {
        text: "hours 4.5\n",
        says: "line 1: 4.5 must be a whole number",
    },
    Case {
        text: "hours\n",
        says: "line 1: \"hours\" takes one number; 0 given",
    },
];

#[test]
fn headers_are_judged(rt: HostRuntime) -> Result<(), Fail> {
    judges(rt.alloc(), &CASES)
}

// Complete headers, with one value that is refused once the sheet is settled, at the line of that value, or with none.
const AGREEMENTS: [Case; 9] = [
    Case {
        text: "programme E\naccount 8\nmonth 2026-07\ncapacity 500\nreduction 300\nhours 4\n",
        says: "line 2: refusal 2: there are only the accounts 0 to 7",
    },
    Case {
        text: "programme E\naccount 300\nmonth 2026-07\ncapacity 500\nreduction 300\nhours 4\n",
        says: "line 2: refusal 2: there are only the accounts 0 to 7",
    },
    Case {
        text: "programme E\naccount 1\nmonth 2026-07\ncapacity 99\nreduction 50\nhours 4\n",
        says: "line 4: refusal 6: capacity, reduction, hours, price or a figure is outside its range",
    },
    Case {
        text: "programme E\naccount 1\nmonth 2026-07\ncapacity 99999999999999\nreduction 300\nhours 4\n",
        says: "line 4: refusal 6: capacity, reduction, hours, price or a figure is outside its range",
    },
    Case {
        text: "programme E\naccount 1\nmonth 2026-07\ncapacity 500\nreduction 501\nhours 4\n",
        says: "line 5: refusal 6: capacity, reduction, hours, price or a figure is outside its range",
    },
    Case {
        text: "programme J\naccount 1\nmonth 2026-07\ncapacity 500\nreduction 99\nhours 4\n",
        says: "line 5: refusal 6: capacity, reduction, hours, price or a figure is outside its range",
    },
    Case {
        text: "programme E\naccount 1\nmonth 2026-07\ncapacity 500\nreduction 300\nhours 3\n",
        says: "line 6: refusal 6: capacity, reduction, hours, price or a figure is outside its range",
    },
    Case {
        text: "programme E\naccount 1\nmonth 2026-07\ncapacity 500\nreduction 300\nhours 1000\n",
        says: "line 6: refusal 6: capacity, reduction, hours, price or a figure is outside its range",
    },
    Case {
        text: "programme E\naccount 0\nmonth 2026-07\ncapacity 200000\nreduction 200000\nhours 2\n",
        says: "settled",
    },
];

#[test]
fn agreements_are_checked(rt: HostRuntime) -> Result<(), Fail> {
    judges(rt.alloc(), &AGREEMENTS)
}

// Of several faults of one line the first that is read is told: the count of the words, then the text, then an earlier line;
// and of several words that a header lacks the first, in the order programme, account, month, capacity, reduction, hours.
const SEVERAL: [Case; 10] = [
    Case {
        text: "hours 4\nhours x\n",
        says: "line 2: x is no number",
    },
    Case {
        text: "programme E\nprogramme X\n",
        says: "line 2: X is no programme (E for economic, J for joint, R for reliable bidding)",
    },
    Case {
        text: "hours 4\nhours 4 4\n",
        says: "line 2: \"hours\" takes one number; 2 given",
    },
    Case {
        text: "event 2026-02-30\n",
        says: "line 1: \"event\" takes DATE START early|late PRICE BASELINE LOAD; 1 given",
    },
    Case {
        text: "month 2026-07\n",
        says: "the sheet has no line \"programme\"",
    },
    Case {
        text: "programme E\nhours 4\n",
        says: "the sheet has no line \"account\"",
    },
    Case {
        text: "programme E\naccount 1\nhours 4\n",
        says: "the sheet has no line \"month\"",
    },
    Case {
        text: "programme E\naccount 1\nmonth 2026-07\nhours 4\n",
        says: "the sheet has no line \"capacity\"",
    },
    Case {
        text: "programme E\naccount 1\nmonth 2026-07\ncapacity 500\nhours 4\n",
        says: "the sheet has no line \"reduction\"",
    },
    Case {
        text: "month 2026-07\nevent 2026-02-30 13:10 soon six x y\n",
        says: "line 2: an event before the line \"programme\"",
    },
];

#[test]
fn the_first_of_several_faults_is_told(rt: HostRuntime) -> Result<(), Fail> {
    judges(rt.alloc(), &SEVERAL)
}

// Bytes that are no text, or no words.
#[test]
fn random_bytes_are_refused(rt: HostRuntime) -> Result<(), Fail> {
    says(
        rt.alloc(),
        b"\xff\x00\x9c\x3a\xe2\x28\xa1",
        "byte 0 is not UTF-8 text",
    )?;
    says(
        rt.alloc(),
        b"programme E\nacco\xe9nt 1\n",
        "byte 16 is not UTF-8 text",
    )?;
    says(
        rt.alloc(),
        b"\x01\x7f\x1b[",
        "line 1: \"\\u{1}\\u{7f}\\u{1b}[\" is none of the words programme, account, month, capacity, reduction, hours, event",
    )
}
