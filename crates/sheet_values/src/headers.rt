// The header of a sheet: what it says, and on which lines.

use calendar::Month;
use settlement::Agreement;

// Where the header's words stand; beside the agreement and not in it, since the agreement is settled as a whole.
#[derive(Clone, Copy, PartialEq, Eq, Debug)]
pub struct HeaderLines {
    pub account: usize,
    pub capacity: usize,
    pub reduction: usize,
    pub hours: usize,
}

#[derive(Clone, Copy, PartialEq, Eq, Debug)]
pub struct Header {
    pub agreement: Agreement,
    pub month: Month,
    pub lines: HeaderLines,
}
