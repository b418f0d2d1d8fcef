// The checks, in rising order of their numbers.

ghost use Rattle.std.specs.Prelude.{◌≡◌, ◌≤◌, length, map, MatchResult, OnOk};
ghost use Rattle.refusal.specs.Answers.{plain, told};
ghost use Rattle.programme.specs.Programmes.{meaning_of};
ghost use Rattle.settlement.specs.Checks.{agreement_test, called_on, event_test};
ghost use Rattle.settlement.specs.Month.{Names, Passed};

use crate::called::Called;
use crate::events::{Agreement, Event, Refused};
use calendar::Day;
use limits::ACCOUNTS;
use programme::lawful_price;
use refusal::Refusal;

// Whether one of the events is on that day.
fn called_on<E: Called>(events: &[E], day: Day) -> bool
    ensures { result ≡ called_on (map E.event events.now) day.number }
{
    events.iter().any(|called| called.event().day == day)
}

impl Agreement {
    // The account, then the terms.
    pub fn check(self) -> Result<(), Refusal>
        ensures { told result ≡ plain (agreement_test self) }
    {
        if self.account >= ACCOUNTS {
            return Err(Refusal::NoSuchAccount);
        }
        if !self.code.figures().allows(self.terms) {
            return Err(Refusal::OutOfRange);
        }
        Ok(())
    }

    // An event after the earlier ones of its month.
    pub(crate) fn check_event<E: Called>(self, earlier: &[E], event: Event) -> Result<(), Refusal>
        requires { length earlier.now ≤ 36 }
        ensures { told result ≡ plain (event_test (meaning_of self.code).figures self.terms (map E.event earlier.now) event) }
    {
        let figures = self.code.figures();
        let terms = self.terms;
        let dispatch = event.dispatch;
        if !figures.can_measure(terms.quarters(), dispatch.baseline, dispatch.event_load) {
            return Err(Refusal::OutOfRange);
        }
        if !lawful_price(dispatch.price) {
            return Err(Refusal::PriceTooHigh);
        }
        if called_on(earlier, event.day) {
            return Err(Refusal::NoticeStands);
        }
        if !event.day.weekday().is_monday_to_friday() {
            return Err(Refusal::NoBusinessDay);
        }
        if !figures.in_season(event.day.month().calendar_month()) {
            return Err(Refusal::OutOfSeason);
        }
        if !terms.ends_by_midnight(event.start.number()) {
            return Err(Refusal::PassesMidnight);
        }
        if dispatch.late && !figures.late_notices {
            return Err(Refusal::NoticeTooLate);
        }
        if usize::from(terms.hours) * (earlier.len() + 1) > usize::from(figures.cap_hours) {
            return Err(Refusal::CapPassed);
        }
        Ok(())
    }

    // The first event that is refused, if any.
    pub(crate) fn check_events<E: Called>(self, events: &[E]) -> Result<(), Refused>
        requires { agreement_test self ≡ 0 }
        ensures first { MatchResult result (λ _. Passed self (map E.event events.now) (length events.now)) (Names self (map E.event events.now)) }
        ensures few { OnOk result (length events.now ≤ 18) }
    {
        // with its place, by which the earlier events are cut off and a refusal names the event
        for (i, called) in events.iter().enumerate() {
            self.check_event(&events[..i], called.event())
                .map_err(move |refusal| Refused {
                    event: Some(i),
                    refusal,
                })?;
        }
        Ok(())
    }
}
