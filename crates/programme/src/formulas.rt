// The amounts of the three programmes.

ghost use Rattle.std.specs.Prelude.{◌≡◌, ◌*◌, ◌<◌, ◌≤◌, true};
ghost use Rattle.programme.specs.Bounds.{lawful_terms, quarters};
ghost use Rattle.programme.specs.Formulas.{Nearest, economic_event, reliable_basic, reliable_credit, reliable_event, reliable_surcharge};
ghost use Rattle.programme.specs.Formulas.{below_lowest as is_below, missed as misses, rate as rate_of, rounded as rounded_ratio, saving as saved};

use crate::dispatches::Dispatch;
use crate::payables::Payable;
use crate::terms::Terms;

// a / b rounded to the nearest whole number, a half upward. Of amounts in their ranges: what an account only shows is rounded there,
// for any two numbers.
fn rounded(a: u64, b: u64) -> u64
    requires { (0 < b) × (b ≤ 1000000000) × (a ≤ 1000000000000000000) }
    ensures value { result ≡ rounded_ratio a b }
    ensures nearest { Nearest a b result }
{
    (2 * a + b) / (2 * b)
}

// What was saved over five days: the baseline less five times the event load.
pub fn saving(baseline: u64, event_load: u64) -> u64
    ensures { result ≡ saved baseline event_load }
{
    baseline.saturating_sub(event_load.saturating_mul(5))
}

impl Dispatch {
    pub fn saving(self) -> u64
        ensures { result ≡ saved self.baseline self.event_load }
    {
        saving(self.baseline, self.event_load)
    }
}

// The rate in per cent at which economic bidding pays for a saving, after a notice that is late or not, a yes or no as the event function takes it; for any n, where terms have only multiples of four.
pub fn rate(late: bool, n: u16, reduction_kw: u32, saving: u64) -> u8
    ensures value { result ≡ rate_of late (50 * n * reduction_kw) saving }
    ensures most { result ≤ 120 }
{
    let percent = 50 * u64::from(n) * u64::from(reduction_kw);
    if late {
        120
    } else if saving < 60 * percent {
        0
    } else if saving < 80 * percent {
        100
    } else if saving <= 120 * percent {
        110
    } else {
        100
    }
}

// Whether a saving is on average below the lowest reduction, so that nothing is paid; for any n too.
pub fn below_lowest(lowest_kw: u32, n: u16, saving: u64) -> bool
    ensures { result ≡ is_below lowest_kw n saving }
{
    saving < 5000 * u64::from(n) * u64::from(lowest_kw)
}

impl Payable {
    // The event function of economic and joint bidding, which have other lowest reductions. Plain numbers, as the trait has them.
    pub(crate) fn economic(self, lowest_kw: u32) -> (u64, u64, u64)
        ensures { let d = self.dispatch in result ≡ economic_event lowest_kw self.terms d.price d.late d.baseline d.event_load }
    {
        let Dispatch { price, late, .. } = self.dispatch;
        let n = self.terms.quarters();
        let saving = self.dispatch.saving();
        if below_lowest(lowest_kw, n, saving) {
            return (0, 0, 0);
        }
        let percent = rate(late, n, self.terms.reduction_kw, saving);
        let credit = rounded(saving * u64::from(price) * u64::from(percent), 200_000_000);
        (credit, 0, 0)
    }

    // The event function of reliable bidding, which asks nothing of the notice's lateness. Plain numbers, as the trait has them.
    pub(crate) fn reliable(self) -> (u64, u64, u64)
        ensures { let d = self.dispatch in result ≡ reliable_event self.terms d.price d.late d.baseline d.event_load }
    {
        (
            self.reliable_credit(),
            self.reliable_surcharge(),
            u64::from(self.missed()),
        )
    }

    fn reliable_credit(self) -> u64
        ensures { let d = self.dispatch in result ≡ reliable_credit (quarters self.terms) d.price (saved d.baseline d.event_load) }
    {
        let saving = self.dispatch.saving();
        if saving < 250_000 {
            return 0;
        }
        let n = u64::from(self.terms.quarters());
        rounded(saving * n * u64::from(self.dispatch.price), 2_000_000)
    }

    fn missed(self) -> bool
        ensures { result ≡ misses self.terms.reduction_kw (saved self.dispatch.baseline self.dispatch.event_load) }
    {
        self.dispatch.saving() < 5000 * u64::from(self.terms.reduction_kw)
    }

    fn reliable_surcharge(self) -> u64
        ensures { let d = self.dispatch in result ≡ reliable_surcharge (quarters self.terms) self.terms.reduction_kw d.price (saved d.baseline d.event_load) }
    {
        if !self.missed() {
            return 0;
        }
        let lacking = 5000 * u64::from(self.terms.reduction_kw) - self.dispatch.saving();
        let n = u64::from(self.terms.quarters());
        rounded(lacking * n * u64::from(self.dispatch.price), 4_000_000)
    }
}

// The month function of reliable bidding, whose premise is that of the trait's.
pub(crate) fn reliable_basic(terms: Terms, events: u8, missed: u8) -> u64
    requires { lawful_terms terms ≡ true }
    ensures { result ≡ reliable_basic terms events missed }
{
    let reduction = u64::from(terms.reduction_kw);
    if events == 0 {
        return 0;
    }
    if missed == 0 {
        return 72 * reduction;
    }
    let reached = u64::from(events.saturating_sub(missed));
    rounded(60 * reduction * reached, u64::from(events))
}
