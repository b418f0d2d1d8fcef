// The figures of an event, as a sheet gives them.

#[derive(Clone, Copy, PartialEq, Eq, Debug)]
pub enum Figure {
    // a demand in W: the mean over the window, or its peak, as the programme measures
    Demand(u64),
    // the figure itself, in W added up
    Total(u64),
}
