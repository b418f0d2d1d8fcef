// Reading a sheet line by line: the header first, then the events.

ghost use Rattle.std.specs.Prelude.{◌≡◌, IfOk, MatchResult, vec_items};
ghost use Rattle.sheet_values.specs.Drafts.{Completes};
ghost use Rattle.sheet.specs.Reading.{LacksHeader, LineAdds, LineFails, told_on, Writes, WritesNone};
ghost use Rattle.sheet.specs.Sheets.{Sound};

use crate::sheets::Sheet;
use settlement::Event;
use sheet_values::{Draft, Noted, read_event};
use sheet_words::{LineFault, SheetFault, Statement, parse};
use std::alloc::Global;

// A line's fault with its line, but for want of memory, which is none of the line's.
fn on_line(line: usize, fault: LineFault) -> SheetFault
    ensures { result ≡ told_on line fault }
{
    match fault {
        LineFault::Memory => SheetFault::Memory,
        fault => SheetFault::Line { line, fault },
    }
}

// Takes a line's word of the header over into the draft, or answers the line's event, which comes after the events of the lines before.
// A header is complete before its first event, and none of its words comes after.
fn read_line(
    heap: Global,
    draft: &mut Draft,
    events: &[Noted<Event>],
    number: usize,
    line: &str,
) -> Result<Option<Event>, LineFault>
    ensures { MatchResult result (LineAdds number line.now events.now draft.old draft.new) (LineFails line.now events.now draft.old) }
{
    match parse(heap, line)? {
        Statement::Blank => Ok(None),
        Statement::Header(word, _) if !events.is_empty() => Err(LineFault::TooLate(word)),
        Statement::Header(word, text) => {
            draft.take(heap, word, text, number)?;
            Ok(None)
        }
        Statement::Event(words) => {
            let header = draft.complete().map_err(LineFault::TooSoon)?;
            Ok(Some(read_event(heap, header, words)?))
        }
    }
}

// The sheet of the events that were read, under the header that was noted if that is complete.
fn sheet_of(draft: &Draft, events: Vec<Noted<Event>>) -> Result<Sheet, SheetFault>
    ensures { MatchResult result (λ sheet. Completes draft.now sheet.header × (vec_items sheet.events ≡ vec_items events)) (LacksHeader draft.now) }
{
    let header = draft.complete().map_err(|word| if draft.is_empty() {
        SheetFault::Empty
    } else {
        SheetFault::Lacking(word)
    })?;
    Ok(Sheet { header, events })
}

impl Sheet {
    pub fn read(heap: Global, text: &[u8]) -> Result<Sheet, SheetFault>
        ensures sound { IfOk result Sound }
        ensures means { MatchResult result (Writes text.entry.now) (WritesNone text.entry.now) }
    {
        let text = std::str::from_utf8(text).map_err(|fault| SheetFault::NotText {
            byte: fault.valid_up_to(),
        })?;
        let mut draft = Draft::new();
        let mut events: Vec<Noted<Event>> = Vec::new(heap);
        for (number, line) in (1..).zip(text.lines()) {
            let event = read_line(heap, &mut draft, events.as_slice(), number, line).map_err(
                |fault| on_line(number, fault),
            )?;
            if let Some(value) = event {
                events.push(Noted {
                    value,
                    line: number,
                })?;
            }
        }
        sheet_of(&draft, events)
    }
}
