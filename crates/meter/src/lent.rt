// A meter that is lent is a meter.

use crate::meters::Meter;

impl<M: Meter> Meter for &M {
    ghost readings = { λ m. M.Meter.readings m.now };

    ghost bounded = { λ m. M.Meter.bounded m.now };

    fn reading(&self, account: u8, day: u16, quarter: u8) -> Option<u32> {
        (**self).reading(account, day, quarter)
    }
}
