// The account of a month's sheet, as text.

#![tactic(auto)]

mod amounts;
mod nets;
mod printing;

pub use amounts::net;
pub use nets::Net;
pub use printing::{account, account_text};
