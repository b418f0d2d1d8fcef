// What an event is paid by.

#[derive(Clone, Copy, PartialEq, Eq, Debug)]
pub struct Dispatch {
    // the price offered, in hundredths of a dollar per kWh
    pub price: u16,
    // whether the notice was late: a yes or no, as the event function takes it
    pub late: bool,
    // the windows of the baseline days, measured and added up, in W
    pub baseline: u64,
    // the window of the event's day, measured, in W
    pub event_load: u64,
}
