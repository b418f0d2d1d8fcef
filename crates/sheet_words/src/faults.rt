// What may be wrong with a sheet.

ghost use Rattle.std.specs.Prelude.{◌≡◌};
ghost use Rattle.sheet_words.specs.declared.faults.LineFault.TheVariants.{Memory as no_memory};
ghost use Rattle.sheet_words.specs.declared.faults.SheetFault.TheVariants.{Memory as out_of_memory};

use crate::keys::Word;
use decimals::Places;
use refusal::Refusal;
use std::alloc::{AllocError, AllocFailed};

// Why a word cannot stand where it does.
#[derive(Clone, Copy, PartialEq, Eq, Debug)]
pub enum Complaint {
    UnknownWord,
    UnknownProgramme,
    NoMonth,
    NoDate,
    NoTime,
    NoNotice,
    NotANumber,
    TooManyDigits,
    TooManyDecimals(Places),
    OutsideMonth,
}

// What is wrong with a line.
#[derive(Drop)]
pub enum LineFault {
    Wrong { text: String, complaint: Complaint },
    // so many words follow the first
    WordCount { word: Word, given: usize },
    // the word began an earlier line
    Twice { word: Word, line: usize },
    // an event came before this word of the header
    TooSoon(Word),
    // a word of the header came after an event
    TooLate(Word),
    Refused(Refusal),
    Memory,
}

// Want of memory is a case of each error type, as everywhere in the project; on a line it is told without the line.
#[derive(Drop)]
pub enum SheetFault {
    // the first byte that is no text
    NotText { byte: usize },
    Empty,
    // no line begins with this word
    Lacking(Word),
    Line { line: usize, fault: LineFault },
    Memory,
}

// By hand for each error type: a derive that writes them wants the allocator's error inside `Memory`, and promises nothing.
impl From<AllocError> for LineFault {
    ghost from_gives = { λ _ fault. fault ≡ no_memory };

    fn from(_e: AllocError) -> LineFault {
        LineFault::Memory
    }
}

impl From<AllocError> for SheetFault {
    ghost from_gives = { λ _ fault. fault ≡ out_of_memory };

    fn from(_e: AllocError) -> SheetFault {
        SheetFault::Memory
    }
}

impl<T: Drop> From<AllocFailed<T>> for SheetFault {
    ghost from_gives = { λ _ fault. fault ≡ out_of_memory };

    fn from(_e: AllocFailed<T>) -> SheetFault {
        SheetFault::Memory
    }
}
