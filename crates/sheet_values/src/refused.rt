// Where a header is at fault.

ghost use Rattle.std.specs.Prelude.{◌≡◌};
ghost use Rattle.sheet_values.specs.Headers.{refused_line};

use crate::headers::Header;
use limits::ACCOUNTS;

impl Header {
    // The line that a refusal of the agreement names: that of the account, or of the first of the terms that is out of its range.
    pub fn refused_line(self) -> usize
        ensures { result ≡ refused_line self }
    {
        let agreement = self.agreement;
        let terms = agreement.terms;
        // `Terms::lawful` tests all ranges at once, and here each has a line of its own
        let lowest_kw = agreement.code.figures().lowest_kw;
        if agreement.account >= ACCOUNTS {
            self.lines.account
        } else if !(100..=200_000).contains(&terms.capacity_kw) {
            self.lines.capacity
        } else if !(lowest_kw..=terms.capacity_kw).contains(&terms.reduction_kw) {
            self.lines.reduction
        } else {
            self.lines.hours
        }
    }
}
