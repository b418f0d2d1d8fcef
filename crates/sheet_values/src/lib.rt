// The values of a month's sheet: its header and its events, read from words.

#![tactic(auto)]

mod called;
mod drafts;
mod events;
mod figures;
mod headers;
mod measured;
mod noted;
mod numbers;
mod refused;

pub use events::read_event;
pub use headers::{Header, HeaderLines};
pub use measured::Figure;
pub use noted::{Draft, Noted};
pub use numbers::number;
