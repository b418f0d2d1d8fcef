// Numbers of a sheet, read from words and fitted into their types. The heap comes beside a word, as for the header's.

ghost use Rattle.std.specs.Prelude.{ℕ, MatchResult};
ghost use Rattle.decimals.specs.declared.kinds.Places.TheVariants.{Zero as Whole};
ghost use Rattle.decimals.specs.Numerals.{Spells, places_of};
ghost use Rattle.sheet_values.specs.Numbers.{Fits};
ghost use Rattle.sheet_words.specs.Faults.{Blames, complaint_of, IsNoNumber};

use decimals::{Misread, Places};
use sheet_words::{Complaint, LineFault, blame};
use std::alloc::Global;

// The fault of a word that is no number.
fn no_number(heap: Global, text: &str, places: Places, why: Misread) -> LineFault
    ensures { Blames text.now (complaint_of places why) result }
{
    let complaint = match why {
        Misread::Empty | Misread::NotANumber => Complaint::NotANumber,
        Misread::TooManyDigits => Complaint::TooManyDigits,
        Misread::TooManyDecimals => Complaint::TooManyDecimals(places),
    };
    blame(heap, text, complaint)
}

// A word as a number in units of its last place.
pub fn number(heap: Global, text: &str, places: Places) -> Result<u64, LineFault>
    ensures { MatchResult result (λ n. Spells (places_of places) text.now n) (IsNoNumber places text.now) }
{
    decimals::read(text.as_bytes(), places).map_err(|why| no_number(heap, text, places, why))
}

// A number that its type cannot hold becomes the type's largest, which no check of a settlement lets pass.
pub(crate) fn fitted<T: TryFrom<u64> + Drop>(n: u64, largest: T) -> T
where
    T::Error: Drop,
    ensures { Fits T.try_from_gives n largest result }
{
    T::try_from(n).unwrap_or(largest)
}

// A word as a whole number of a type.
pub(crate) fn count<T: TryFrom<u64> + Drop>(
    heap: Global,
    text: &str,
    largest: T,
) -> Result<T, LineFault>
where
    T::Error: Drop,
    ensures { MatchResult result (λ value. (n : ℕ) × Spells 0 text.now n × Fits T.try_from_gives n largest value) (IsNoNumber Whole text.now) }
{
    Ok(fitted(number(heap, text, Places::Zero)?, largest))
}
