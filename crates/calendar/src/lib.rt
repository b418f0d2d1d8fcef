// Days, months, quarters of an hour and moments from 2015 to 2044, and their texts.

#![tactic(auto)]

pub mod days;
mod digits;
pub mod moments;
pub mod months;
pub mod quarters;
pub mod weekdays;
pub mod worked;

pub use days::Day;
pub use moments::Moment;
pub use months::Month;
pub use quarters::Quarter;
pub use weekdays::Weekday;
pub use worked::calendar_facts;
