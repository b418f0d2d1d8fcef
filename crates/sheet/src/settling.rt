// Settling a sheet.

ghost use Rattle.std.specs.Prelude.{◌≡◌};
ghost use Rattle.sheet.specs.Settling.{line_at, noted_line, Settled};

use crate::sheets::Sheet;
use settlement::{Totals, settle_called};
use sheet_words::{LineFault, SheetFault};

impl Sheet {
    // The line of an event, 0 where the sheet has no such event; or the line of the agreement where no event is named.
    pub fn line_of(&self, event: Option<usize>) -> usize
        ensures { result ≡ line_at self.now event }
    {
        self.noted_line(event).unwrap_or(0)
    }

    // The same, and nothing where the sheet has no such event.
    pub fn noted_line(&self, event: Option<usize>) -> Option<usize>
        ensures { result ≡ noted_line self.now event }
    {
        event.map_or(Some(self.header.refused_line()), |i| {
            self.events.get(i).map(|noted| noted.line)
        })
    }

    // What the month comes to; or the line that is refused first, and why.
    pub fn settle(&self) -> Result<Totals, SheetFault>
        ensures { Settled self.now result }
    {
        settle_called(self.header.agreement, self.events.as_slice()).map_err(|refused| {
            SheetFault::Line {
                line: self.noted_line(refused.event).unwrap(),
                fault: LineFault::Refused(refused.refusal),
            }
        })
    }
}
