// A month's sheet.

use settlement::Event;
use sheet_values::{Header, Noted};

#[derive(Drop)]
pub struct Sheet {
    pub header: Header,
    pub events: Vec<Noted<Event>>,
}
