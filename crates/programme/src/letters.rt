// A programme by its letter.

ghost use Rattle.std.specs.Prelude.{◌≡◌, true};
ghost use Rattle.std.specs.Option.{SomeIff};
ghost use Rattle.programme.specs.Bounds.{can_settle, lawful_terms};
ghost use Rattle.programme.specs.Meaning.{paid};
ghost use Rattle.programme.specs.Programmes.{NamesProgramme, ParsesProgramme, letter_of, meaning_of};

use crate::codes::{Code, UnknownProgramme};
use crate::dispatches::Dispatch;
use crate::figures::Figures;
use crate::programmes::{Economic, JointBidding, Programme, Reliable};
use crate::terms::Terms;
use std::str::FromStr;

impl TryFrom<char> for Code {
    type Error = UnknownProgramme;

    ghost try_from_gives = { NamesProgramme };

    fn try_from(letter: char) -> Result<Code, UnknownProgramme> {
        match letter {
            'E' => Ok(Code::Economic),
            'J' => Ok(Code::JointBidding),
            'R' => Ok(Code::Reliable),
            _ => Err(UnknownProgramme),
        }
    }
}

impl FromStr for Code {
    type Err = UnknownProgramme;

    ghost from_str_gives = { ParsesProgramme };

    #[tactic(auto, using(crate::proofs::Spelling::named, crate::proofs::Spelling::unnamed))]
    fn from_str(text: &str) -> Result<Code, UnknownProgramme> {
        let letter: char = text.parse().map_err(|_| UnknownProgramme)?;
        Code::try_from(letter)
    }
}

impl From<Code> for char {
    ghost from_gives = { λ code letter. letter ≡ letter_of code };

    fn from(code: Code) -> char {
        match code {
            Code::Economic => 'E',
            Code::JointBidding => 'J',
            Code::Reliable => 'R',
        }
    }
}

// The three matches below each call a function of a type that is known only in its arm; the one above gives each programme its letter.
impl Code {
    pub fn figures(self) -> Figures
        ensures { result ≡ (meaning_of self).figures }
    {
        match self {
            Code::Economic => Economic::figures(),
            Code::JointBidding => JointBidding::figures(),
            Code::Reliable => Reliable::figures(),
        }
    }

    // Credit, surcharge, and 1 for a missed event, else 0, in plain numbers as the trait's event function answers them;
    // nothing where terms, price or figures are out of range.
    pub fn event(self, terms: Terms, dispatch: Dispatch) -> Option<(u64, u64, u64)>
        ensures { SomeIff result (can_settle (meaning_of self).figures terms dispatch ≡ true) (paid (meaning_of self) terms dispatch) }
    {
        if !self.figures().can_settle(terms, dispatch) {
            return None;
        }
        Some(match self {
            Code::Economic => Economic::event(terms, dispatch),
            Code::JointBidding => JointBidding::event(terms, dispatch),
            Code::Reliable => Reliable::event(terms, dispatch),
        })
    }

    // The basic credit of a month; nothing where the terms are out of range.
    pub fn basic(self, terms: Terms, events: u8, missed: u8) -> Option<u64>
        ensures { SomeIff result (lawful_terms terms ≡ true) ((meaning_of self).basic terms events missed) }
    {
        if !terms.lawful() {
            return None;
        }
        Some(match self {
            Code::Economic => Economic::basic(terms, events, missed),
            Code::JointBidding => JointBidding::basic(terms, events, missed),
            Code::Reliable => Reliable::basic(terms, events, missed),
        })
    }
}
