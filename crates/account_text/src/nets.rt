// The balance of a month: paid to the account, or owed by it.

#[derive(Clone, Copy, PartialEq, Eq, Debug)]
pub enum Net {
    Paid(u64),
    Owed(u64),
}
