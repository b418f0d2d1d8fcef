// Settling a month: the checks first, then the amounts.

ghost use Rattle.std.specs.Prelude.{◌≡◌, ◌≤◌, true, length, map, All};
ghost use Rattle.programme.specs.Bounds.{can_settle, lawful_terms};
ghost use Rattle.settlement.specs.Month.{Settles, totals};
ghost use Rattle.settlement.specs.Worked.{WorkedFigures};

use crate::called::Called;
use crate::events::{Agreement, Event, Refused, Totals};
use programme::{Code, Dispatch, Economic, JointBidding, Programme, Reliable, Terms};

// The amounts of a month's events, which are few and can all be settled. Lawful terms are a premise here, as of the month function:
// a type of them would be made and taken apart in this place alone.
fn add_up<P: Programme, E: Called>(terms: Terms, events: &[E]) -> Totals
    requires few { length events.now ≤ 18 }
    requires lawful { lawful_terms terms ≡ true }
    requires each { All (λ e. can_settle P.Programme.meaning.figures terms (E.event e).dispatch ≡ true) events.now }
    ensures { result ≡ totals P.Programme.meaning terms (map E.event events.now) }
{
    let mut missed: u8 = 0;
    let mut credits: u64 = 0;
    let mut surcharges: u64 = 0;
    for called in events {
        let (credit, surcharge, miss) = P::event(terms, called.event().dispatch);
        credits += credit;
        surcharges += surcharge;
        // `as`: 0 or 1, which is proved; `u8::try_from(..).unwrap()` would ask for the same proof and say no more
        missed += miss as u8;
    }
    // `as`, as above: at most 18
    let count = events.len() as u8;
    let basic = P::basic(terms, count, missed);
    Totals {
        events: count,
        missed,
        basic,
        credits,
        surcharges,
    }
}

// What the month of whatever has an event comes to; or which event is refused first, and why.
pub fn settle_called<E: Called>(agreement: Agreement, events: &[E]) -> Result<Totals, Refused>
    ensures { Settles agreement (map E.event events.now) result }
{
    agreement.check().map_err(|refusal| Refused {
        event: None,
        refusal,
    })?;
    agreement.check_events(events)?;
    let terms = agreement.terms;
    // each arm adds up by a type of its own, and a letter is known to name one only here
    Ok(match agreement.code {
        Code::Economic => add_up::<Economic, E>(terms, events),
        Code::JointBidding => add_up::<JointBidding, E>(terms, events),
        Code::Reliable => add_up::<Reliable, E>(terms, events),
    })
}

// The same of events alone, whose type no caller has to name, also where there are none.
pub fn settle_month(agreement: Agreement, events: &[Event]) -> Result<Totals, Refused>
    ensures { Settles agreement events.now result }
{
    settle_called(agreement, events)
}

// The worked examples, as a theorem of the definitions.
#[tactic(auto, unfolding(calendar::specs::Months::first_day))]
pub fn worked_figures()
    ensures { WorkedFigures }
{}

// Two of the worked examples as the code computes them:
// the credit of an economic event at exactly 120 per cent, and the basic credit of a reliable month with one of seven events missed.
pub fn worked_amounts() -> (u64, u64)
    ensures credit { result.0 ≡ 9504 }
    ensures basic { result.1 ≡ 15429 }
{
    let terms = Terms {
        capacity_kw: 800,
        reduction_kw: 300,
        hours: 4,
    };
    let dispatch = Dispatch {
        price: 600,
        late: false,
        baseline: 28_800_000,
        event_load: 0,
    };
    let (credit, _, _) = Economic::event(terms, dispatch);
    (credit, Reliable::basic(terms, 7, 1))
}
