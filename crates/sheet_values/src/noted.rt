// What is noted of a sheet with its line, and the header as far as it is read.

use calendar::Month;
use programme::Code;

// A value and the line that it stands on.
#[derive(Clone, Copy, PartialEq, Eq, Debug)]
pub struct Noted<T> {
    pub value: T,
    pub line: usize,
}

#[derive(Clone, Copy, PartialEq, Eq, Default, Debug)]
pub struct Draft {
    pub code: Option<Noted<Code>>,
    pub account: Option<Noted<u8>>,
    pub month: Option<Noted<Month>>,
    pub capacity: Option<Noted<u32>>,
    pub reduction: Option<Noted<u32>>,
    pub hours: Option<Noted<u8>>,
}
