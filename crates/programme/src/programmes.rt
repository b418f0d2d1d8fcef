// What a programme is, and the three that there are.

ghost use Rattle.std.specs.Prelude.{◌≡◌, true};
ghost use Rattle.programme.specs.Bounds.{can_settle, lawful_terms};
ghost use Rattle.programme.specs.Meaning.{Lawful, Meaning, paid};
ghost use Rattle.programme.specs.Programmes.{economic, joint_bidding, reliable};
ghost use Rattle.programme.specs.Amounts.{lawful_economic, lawful_joint_bidding, lawful_reliable};
ghost use Rattle.std.proofs.Common.{rules};

use crate::dispatches::Dispatch;
use crate::figures::{Figures, Fold};
use crate::formulas;
use crate::measures::{Measure, Peak, Sum};
use crate::payables::Payable;
use crate::terms::Terms;

// Its fixed figures are associated constants, its letter among them as a byte, and its event function answers plain numbers:
// rules of the project. Elsewhere a programme is a `Code`.
pub trait Programme {
    const CODE: u8;

    const BASELINE_DAYS: u8;

    const LOWEST_KW: u32;

    const HOURS: [bool; 7];

    const FIRST_MONTH: u8;

    const LAST_MONTH: u8;

    const CAP_HOURS: u8;

    const DEADLINE: u8;

    const LATE_NOTICES: bool;

    const FOLD: Fold;

    type Window: Measure;

    // what the programme means: its figures, its event function, its month function
    ghost meaning: { Meaning };

    fn figures() -> Figures
        ensures { result ≡ meaning.figures };

    // Credit, surcharge, and 1 for a missed event, else 0.
    fn event(terms: Terms, dispatch: Dispatch) -> (u64, u64, u64)
        requires { can_settle meaning.figures terms dispatch ≡ true }
        ensures { result ≡ paid meaning terms dispatch };

    // The basic credit of a month with so many events and so many missed. Lawful terms are a premise: `Payable` has them beside an event,
    // which a month's credit has not, and a type of terms alone would be made and taken apart for this one call.
    fn basic(terms: Terms, events: u8, missed: u8) -> u64
        requires { lawful_terms terms ≡ true }
        ensures { result ≡ meaning.basic terms events missed };

    ghost lawful: { Lawful meaning };

    // the measure's type is the one that the figures name
    ghost measured: { Self.Window.Measure.kind ≡ meaning.figures.fold };
}

// A programme's constants as one value. A method that the trait provides would need a ghost member beside each constant.
macro_rules! fixed_figures {
    () => {
        Figures {
            code: Self::CODE,
            baseline_days: Self::BASELINE_DAYS,
            lowest_kw: Self::LOWEST_KW,
            hours: Self::HOURS,
            first_month: Self::FIRST_MONTH,
            last_month: Self::LAST_MONTH,
            cap_hours: Self::CAP_HOURS,
            deadline: Self::DEADLINE,
            late_notices: Self::LATE_NOTICES,
            fold: Self::FOLD,
        }
    };
}

// Events of 2 and of 4 hours.
const TWO_OR_FOUR: [bool; 7] = [false, false, true, false, true, false, false];

pub struct Economic;

impl Programme for Economic {
    const CODE: u8 = b'E';

    const BASELINE_DAYS: u8 = 5;

    const LOWEST_KW: u32 = 20;

    const HOURS: [bool; 7] = TWO_OR_FOUR;

    const FIRST_MONTH: u8 = 1;

    const LAST_MONTH: u8 = 12;

    const CAP_HOURS: u8 = 36;

    const DEADLINE: u8 = 40;

    const LATE_NOTICES: bool = true;

    const FOLD: Fold = Fold::Sum;

    type Window = Sum;

    ghost meaning = { economic };

    ghost lawful = { lawful_economic };

    ghost measured = { Prim.search rules };

    fn figures() -> Figures {
        fixed_figures!()
    }

    fn event(terms: Terms, dispatch: Dispatch) -> (u64, u64, u64) {
        Payable { terms, dispatch }.economic(Self::LOWEST_KW)
    }

    fn basic(_terms: Terms, _events: u8, _missed: u8) -> u64 {
        0
    }
}

// What it shares with economic bidding stands again: a constant's value can name none of another impl, nor of a marker's
// in a generic one, and a const parameter would not promise that the lowest reduction is at least 1 kW.
pub struct JointBidding;

impl Programme for JointBidding {
    const CODE: u8 = b'J';

    const BASELINE_DAYS: u8 = 5;

    const LOWEST_KW: u32 = 100;

    const HOURS: [bool; 7] = TWO_OR_FOUR;

    const FIRST_MONTH: u8 = 1;

    const LAST_MONTH: u8 = 12;

    const CAP_HOURS: u8 = 36;

    const DEADLINE: u8 = 40;

    const LATE_NOTICES: bool = true;

    const FOLD: Fold = Fold::Sum;

    type Window = Sum;

    ghost meaning = { joint_bidding };

    ghost lawful = { lawful_joint_bidding };

    ghost measured = { Prim.search rules };

    fn figures() -> Figures {
        fixed_figures!()
    }

    fn event(terms: Terms, dispatch: Dispatch) -> (u64, u64, u64) {
        Payable { terms, dispatch }.economic(Self::LOWEST_KW)
    }

    fn basic(_terms: Terms, _events: u8, _missed: u8) -> u64 {
        0
    }
}

pub struct Reliable;

impl Programme for Reliable {
    const CODE: u8 = b'R';

    const BASELINE_DAYS: u8 = 5;

    const LOWEST_KW: u32 = 50;

    const HOURS: [bool; 7] = TWO_OR_FOUR;

    const FIRST_MONTH: u8 = 5;

    const LAST_MONTH: u8 = 12;

    const CAP_HOURS: u8 = 28;

    const DEADLINE: u8 = 44;

    const LATE_NOTICES: bool = false;

    const FOLD: Fold = Fold::Peak;

    type Window = Peak;

    ghost meaning = { reliable };

    ghost lawful = { lawful_reliable };

    ghost measured = { Prim.search rules };

    fn figures() -> Figures {
        fixed_figures!()
    }

    fn event(terms: Terms, dispatch: Dispatch) -> (u64, u64, u64) {
        Payable { terms, dispatch }.reliable()
    }

    fn basic(terms: Terms, events: u8, missed: u8) -> u64 {
        formulas::reliable_basic(terms, events, missed)
    }
}
