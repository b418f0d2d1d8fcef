// Faults that quote a word.

ghost use Rattle.sheet_words.specs.Faults.{Blames};

use crate::faults::{Complaint, LineFault};
use std::alloc::Global;

// The fault of a word, which it quotes if there is memory for that: so each reader of a word takes the heap beside it,
// where one that answered a bare complaint would have it blamed at each call.
pub fn blame(heap: Global, text: &str, complaint: Complaint) -> LineFault
    ensures { Blames text.now complaint result }
{
    String::from_str(heap, text).map_or(
        LineFault::Memory,
        |text| LineFault::Wrong { text, complaint },
    )
}
