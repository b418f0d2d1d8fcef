// Which terms, prices and figures may be settled, and which terms a programme lets an account agree on.

ghost use Rattle.std.specs.Prelude.{◌≡◌};
ghost use Rattle.programme.specs.Bounds.{allowed_terms, can_settle, ends_by_midnight, from_readings, in_season, lawful_price, lawful_terms, most, parts, quarters};

use crate::dispatches::Dispatch;
use crate::figures::{Figures, Fold};
use crate::terms::Terms;
use limits::{MOST_WATTS, QUARTERS};

// Whether a price, in hundredths of a dollar per kWh, may be offered.
pub fn lawful_price(price: u16) -> bool
    ensures { result ≡ lawful_price price }
{
    price <= 1000
}

impl Terms {
    // The quarters of an hour in an event.
    pub fn quarters(self) -> u16
        ensures { result ≡ quarters self }
    {
        4 * u16::from(self.hours)
    }

    // Whether some programme may have accepted these terms.
    pub fn lawful(self) -> bool
        ensures { result ≡ lawful_terms self }
    {
        (100..=200_000).contains(&self.capacity_kw)
            && (1..=self.capacity_kw).contains(&self.reduction_kw)
            && (2..=6).contains(&self.hours)
    }

    // Whether an event that starts at this quarter of the day ends by midnight.
    pub fn ends_by_midnight(self, start: u8) -> bool
        ensures { result ≡ ends_by_midnight self start }
    {
        usize::from(u16::from(start) + self.quarters()) <= QUARTERS
    }
}

impl Fold {
    // How many readings' watts are added up in a figure over so many windows of n quarters.
    pub fn parts(self, windows: u8, n: u16) -> u64
        ensures { result ≡ parts self windows n }
    {
        let windows = u64::from(windows);
        match self {
            Fold::Sum => windows * u64::from(n),
            Fold::Peak => windows,
        }
    }

    // The most that n lawful readings can make.
    pub fn most(self, n: u16) -> u64
        ensures { result ≡ most self n }
    {
        self.parts(1, n) * u64::from(MOST_WATTS)
    }
}

impl Figures {
    // Whether the programme lets an account agree on these terms.
    pub fn allows(self, terms: Terms) -> bool
        ensures { result ≡ allowed_terms self terms }
    {
        terms.lawful()
            && terms.reduction_kw >= self.lowest_kw
            && self.hours[usize::from(terms.hours)]
    }

    // Whether the programme has events in this calendar month, 1 to 12.
    pub fn in_season(self, month: u8) -> bool
        ensures { result ≡ in_season self month }
    {
        (self.first_month..=self.last_month).contains(&month)
    }

    // Whether lawful readings can give these figures for an event of n quarters.
    pub fn can_measure(self, n: u16, baseline: u64, event_load: u64) -> bool
        ensures { result ≡ from_readings self n baseline event_load }
    {
        let most = self.fold.most(n);
        baseline <= u64::from(self.baseline_days) * most && event_load <= most
    }

    // Whether an event can be settled from these terms, this price and these figures.
    pub fn can_settle(self, terms: Terms, dispatch: Dispatch) -> bool
        ensures { result ≡ can_settle self terms dispatch }
    {
        terms.lawful()
            && lawful_price(dispatch.price)
            && self.can_measure(terms.quarters(), dispatch.baseline, dispatch.event_load)
    }
}
