// Reading the line of an event. The heap comes beside each word, for the reason that stands with the header's readers.

ghost use Rattle.std.specs.Prelude.{◌≡◌, ◌≢◌, ℕ, ◌≤◌, Bool, MatchResult};
ghost use Rattle.calendar.specs.Texts.{date_text, time_text};
ghost use Rattle.sheet_words.specs.Faults.{Blames};
ghost use Rattle.sheet_words.specs.declared.faults.Complaint.TheVariants.{NoDate as NamesNoDay, NoTime as NamesNoTime, NoNotice as NeitherNotice};
ghost use Rattle.sheet_values.specs.Events.{EventText, notice_text};
ghost use Rattle.sheet_values.specs.Refusals.{NoEvent};

use crate::headers::Header;
use crate::measured::Figure;
use crate::numbers::{fitted, number};
use calendar::{Day, Quarter};
use decimals::Places;
use programme::Dispatch;
use settlement::Event;
use sheet_words::{Complaint, EventWords, LineFault, blame};
use std::alloc::Global;

// As the readers of the header's words, one line each.
fn read_day(heap: Global, text: &str) -> Result<Day, LineFault>
    ensures { MatchResult result (λ day. text.now ≡ date_text day.number) (λ fault. ((day : ℕ) → day ≤ 10957 → text.now ≢ date_text day) × Blames text.now NamesNoDay fault) }
{
    Day::read(text.as_bytes()).ok_or_else(|| blame(heap, text, Complaint::NoDate))
}

fn read_start(heap: Global, text: &str) -> Result<Quarter, LineFault>
    ensures { MatchResult result (λ quarter. text.now ≡ time_text quarter.number) (λ fault. ((quarter : ℕ) → quarter ≤ 95 → text.now ≢ time_text quarter) × Blames text.now NamesNoTime fault) }
{
    Quarter::read(text.as_bytes()).ok_or_else(|| blame(heap, text, Complaint::NoTime))
}

// Whether the notice was late: a yes or no, as the event function takes it.
fn read_late(heap: Global, text: &str) -> Result<bool, LineFault>
    ensures { MatchResult result (λ late. text.now ≡ notice_text late) (λ fault. ((late : Bool) → text.now ≢ notice_text late) × Blames text.now NeitherNotice fault) }
{
    match text {
        "early" => Ok(false),
        "late" => Ok(true),
        _ => Err(blame(heap, text, Complaint::NoNotice)),
    }
}

// The event that the words of its line describe under a header.
pub fn read_event(heap: Global, header: Header, words: EventWords) -> Result<Event, LineFault>
    ensures { let w = words.entry in MatchResult result (EventText header w.date.now w.start.now w.notice.now w.price.now w.baseline.now w.load.now) (NoEvent header w.date.now w.start.now w.notice.now w.price.now w.baseline.now w.load.now) }
{
    let day = read_day(heap, words.date)?;
    if day.month() != header.month {
        return Err(blame(heap, words.date, Complaint::OutsideMonth));
    }
    let start = read_start(heap, words.start)?;
    let figures = header.agreement.code.figures();
    let quarters = header.agreement.terms.quarters();
    let dispatch = Dispatch {
        late: read_late(heap, words.notice)?,
        price: fitted(number(heap, words.price, Places::Two)?, u16::MAX),
        baseline: Figure::read(heap, words.baseline)?.baseline(figures, quarters),
        event_load: Figure::read(heap, words.load)?.load(figures, quarters),
    };
    Ok(Event {
        day,
        start,
        dispatch,
    })
}
