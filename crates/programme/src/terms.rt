// What an account and the utility agreed on.

#[derive(Clone, Copy, PartialEq, Eq, Debug)]
pub struct Terms {
    // the account's contract capacity
    pub capacity_kw: u32,
    // the reduction the account is to reach when it is called
    pub reduction_kw: u32,
    // the length of an event
    pub hours: u8,
}
