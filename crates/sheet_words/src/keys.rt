// The words that begin a statement: six for the header of a sheet, one for an event.

#[derive(Clone, Copy, PartialEq, Eq, Debug)]
pub enum Word {
    Programme,
    Account,
    Month,
    Capacity,
    Reduction,
    Hours,
    Event,
}
