// Amounts that the account shows.

ghost use Rattle.std.specs.Prelude.{◌≡◌};
ghost use Rattle.decimals.specs.declared.kinds.Places.TheVariants.{Three, Two};
ghost use Rattle.account_text.specs.Shown.{Balances, rounded};

use crate::nets::Net;
use decimals::{Fixed, Places};
use settlement::Totals;

// a / b to the nearest whole number, a half upward, and 0 where b is 0. Only what is shown is rounded,
// so that any two numbers may come, where a programme's amounts have theirs in range.
fn rounded(a: u64, b: u64) -> u64
    ensures { result ≡ rounded a b }
{
    a.saturating_add(b / 2).checked_div(b).unwrap_or(0)
}

// The mean of a figure in which so many readings are added up, in kW with three decimals.
pub(crate) fn mean_kw(watts: u64, parts: u64) -> Fixed
    ensures { result ≡ record { value = rounded watts parts; places = Three } }
{
    Fixed {
        value: rounded(watts, parts),
        places: Places::Three,
    }
}

// A price in hundredths of a dollar, in dollars with two decimals.
pub(crate) fn price(hundredths: u16) -> Fixed
    ensures { result ≡ record { value = hundredths; places = Two } }
{
    Fixed {
        value: u64::from(hundredths),
        places: Places::Two,
    }
}

// What is paid or owed in the end.
pub fn net(totals: Totals) -> Net
    ensures { Balances totals result }
{
    let paid = totals.basic.saturating_add(totals.credits);
    if totals.surcharges <= paid {
        Net::Paid(paid - totals.surcharges)
    } else {
        Net::Owed(totals.surcharges - paid)
    }
}
