// What a clerk reads of a fault.

use crate::faults::{Complaint, LineFault, SheetFault};
use crate::keys::Word;
use decimals::Places;
use std::fmt;

// What is said of a word after it is quoted. No `Display` of the complaint, which would be public and promise nothing.
fn remark(complaint: Complaint) -> &'static str {
    match complaint {
        Complaint::UnknownWord =>
            "is none of the words programme, account, month, capacity, reduction, hours, event",
        Complaint::UnknownProgramme =>
            "is no programme (E for economic, J for joint, R for reliable bidding)",
        Complaint::NoMonth => "is no month (like 2026-02, from 2015-01 to 2044-12)",
        Complaint::NoDate => "is no date (like 2026-02-05, from 2015-01-01 to 2044-12-31)",
        Complaint::NoTime => "is no quarter of an hour (like 13:15)",
        Complaint::NoNotice => "is neither early nor late",
        Complaint::NotANumber => "is no number",
        Complaint::TooManyDigits => "has too many digits",
        Complaint::TooManyDecimals(Places::Zero) => "must be a whole number",
        Complaint::TooManyDecimals(Places::Two) => "has more than two decimals",
        Complaint::TooManyDecimals(Places::Three) => "has more than three decimals",
        Complaint::OutsideMonth => "lies outside the sheet's month",
    }
}

// Words of plain characters stand without quotes, but for an unknown first word.
// In quotes whatever a terminal would obey or not show is escaped.
fn is_quoted(text: &str, complaint: Complaint) -> bool {
    matches!(complaint, Complaint::UnknownWord)
        || text.is_empty()
        || text.bytes().any(|byte| !byte.is_ascii_graphic())
}

// The words that stand after the first.
fn form(word: Word) -> &'static str {
    match word {
        Word::Programme => "one letter",
        Word::Account | Word::Capacity | Word::Reduction | Word::Hours => "one number",
        Word::Month => "one month",
        Word::Event => "DATE START early|late PRICE BASELINE LOAD",
    }
}

impl fmt::Display for LineFault {
    fn fmt<W: fmt::Write>(&self, f: &mut fmt::Formatter<W>) -> fmt::Result {
        match self {
            LineFault::Wrong { text, complaint } => {
                let remark = remark(*complaint);
                if is_quoted(text.as_str(), *complaint) {
                    write!(f, "{text:?} {remark}")
                } else {
                    write!(f, "{text} {remark}")
                }
            }
            LineFault::WordCount { word, given } => {
                let form = form(*word);
                write!(f, "\"{word}\" takes {form}; {given} given")
            }
            LineFault::Twice { word, line } => write!(
                f,
                "\"{word}\" stands on line {line} already"
            ),
            LineFault::TooSoon(word) => write!(f, "an event before the line \"{word}\""),
            LineFault::TooLate(word) => write!(f, "\"{word}\" after the first event"),
            LineFault::Refused(refusal) => write!(f, "{refusal}"),
            LineFault::Memory => f.write_str("not enough memory"),
        }
    }
}

impl fmt::Display for SheetFault {
    fn fmt<W: fmt::Write>(&self, f: &mut fmt::Formatter<W>) -> fmt::Result {
        match self {
            SheetFault::NotText { byte } => write!(f, "byte {byte} is not UTF-8 text"),
            SheetFault::Empty => f.write_str("the sheet is empty"),
            SheetFault::Lacking(word) => write!(f, "the sheet has no line \"{word}\""),
            SheetFault::Line { line, fault } => write!(f, "line {line}: {fault}"),
            SheetFault::Memory => f.write_str("not enough memory"),
        }
    }
}
