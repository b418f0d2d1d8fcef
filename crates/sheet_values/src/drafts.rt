// Reading the header.
// The heap comes beside each word that is read, since a fault quotes the word; readers that answer a bare complaint would have it blamed
// at each call.

ghost use Rattle.std.specs.Prelude.{◌≡◌, ◌≢◌, ℕ, ◌≤◌, [], ◌∷◌, Some, None, MatchResult};
ghost use Rattle.calendar.specs.Texts.{month_text};
ghost use Rattle.programme.specs.declared.codes.Code.{Code as Named};
ghost use Rattle.sheet_words.specs.Faults.{Blames};
ghost use Rattle.sheet_words.specs.declared.faults.Complaint.TheVariants.{UnknownProgramme as UnknownLetter, NoMonth as NamesNoMonth};
ghost use Rattle.sheet_words.specs.declared.faults.LineFault.TheVariants.{Twice as SaidTwice};
ghost use Rattle.sheet_values.specs.Refusals.{NotedOn, Refuses};
ghost use Rattle.programme.specs.Programmes.{letter_of};
ghost use Rattle.sheet_values.specs.Drafts.{is_blank, Completes, Lacks, NamesMonth, Takes};

use crate::headers::{Header, HeaderLines};
use crate::noted::{Draft, Noted};
use crate::numbers::count;
use calendar::Month;
use programme::{Code, Terms};
use settlement::Agreement;
use sheet_words::{Complaint, LineFault, Word, blame};
use std::alloc::Global;

// The readers of single words are one line each, with the text of their own type in the clause: a generic one would be told
// the type's reader, its complaint and its text at every call.
fn read_code(heap: Global, text: &str) -> Result<Code, LineFault>
    ensures { MatchResult result (λ code. text.now ≡ letter_of code ∷ []) (λ fault. ((code : Named) → text.now ≢ letter_of code ∷ []) × Blames text.now UnknownLetter fault) }
{
    text.parse()
        .map_err(|_| blame(heap, text, Complaint::UnknownProgramme))
}

fn read_month(heap: Global, text: &str) -> Result<Month, LineFault>
    ensures { MatchResult result (λ month. NamesMonth text.now month) (λ fault. ((month : ℕ) → month ≤ 359 → text.now ≢ month_text month) × Blames text.now NamesNoMonth fault) }
{
    Month::read(text.as_bytes()).ok_or_else(|| blame(heap, text, Complaint::NoMonth))
}

// Notes a value, if none is noted yet.
fn note<T: Copy>(
    slot: &mut Option<Noted<T>>,
    word: Word,
    value: T,
    line: usize,
) -> Result<(), LineFault>
    ensures { MatchResult result (λ _. (slot.old ≡ None) × (slot.new ≡ Some (record { value = value; line = line }))) (λ fault. (slot.new ≡ slot.old) × ((earlier : ℕ) × NotedOn slot.old earlier × (fault ≡ SaidTwice word earlier))) }
{
    if let Some(noted) = slot {
        return Err(LineFault::Twice {
            word,
            line: noted.line,
        });
    }
    *slot = Some(Noted { value, line });
    Ok(())
}

impl Draft {
    pub fn new() -> Draft
        ensures { result ≡ record { code = None; account = None; month = None; capacity = None; reduction = None; hours = None } }
    {
        Draft::default()
    }

    // Whether no word of the header is read yet.
    pub fn is_empty(&self) -> bool
        ensures { result ≡ is_blank self.now }
    {
        *self == Draft::new()
    }

    // Takes over a header's statement.
    pub fn take(
        &mut self,
        heap: Global,
        word: Word,
        text: &str,
        line: usize,
    ) -> Result<(), LineFault>
        ensures { MatchResult result (λ _. Takes word text.now line self.old self.new) (λ fault. (self.new ≡ self.old) × Refuses word text.now self.old fault) }
    {
        match word {
            Word::Programme => note(&mut self.code, word, read_code(heap, text)?, line),
            Word::Account => note(&mut self.account, word, count(heap, text, u8::MAX)?, line),
            Word::Month => note(&mut self.month, word, read_month(heap, text)?, line),
            Word::Capacity => note(&mut self.capacity, word, count(heap, text, u32::MAX)?, line),
            Word::Reduction => note(
                &mut self.reduction,
                word,
                count(heap, text, u32::MAX)?,
                line,
            ),
            Word::Hours => note(&mut self.hours, word, count(heap, text, u8::MAX)?, line),
            // an event's word is none of the header's: nothing to take; any word may come, since a type of the header's six
            // would be turned into a `Word` by each fault, and would ask more of the caller
            Word::Event => Ok(()),
        }
    }

    // The header, if it is complete, or the first word that it lacks.
    pub fn complete(&self) -> Result<Header, Word>
        ensures { MatchResult result (λ header. Completes self.now header) (λ word. Lacks self.now word) }
    {
        let code = self.code.ok_or(Word::Programme)?;
        let account = self.account.ok_or(Word::Account)?;
        let month = self.month.ok_or(Word::Month)?;
        let capacity = self.capacity.ok_or(Word::Capacity)?;
        let reduction = self.reduction.ok_or(Word::Reduction)?;
        let hours = self.hours.ok_or(Word::Hours)?;
        let terms = Terms {
            capacity_kw: capacity.value,
            reduction_kw: reduction.value,
            hours: hours.value,
        };
        Ok(Header {
            agreement: Agreement {
                code: code.value,
                account: account.value,
                terms,
            },
            month: month.value,
            lines: HeaderLines {
                account: account.line,
                capacity: capacity.line,
                reduction: reduction.line,
                hours: hours.line,
            },
        })
    }
}
