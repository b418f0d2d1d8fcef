// The words that begin a statement, as text.

ghost use Rattle.std.specs.Prelude.{◌≡◌, Some};
ghost use Rattle.sheet_words.specs.Words.{ParsesWord, spelling};

use crate::faults::Complaint;
use crate::keys::Word;
use std::fmt;
use std::str::FromStr;

impl FromStr for Word {
    type Err = Complaint;

    ghost from_str_gives = { ParsesWord };

    fn from_str(text: &str) -> Result<Word, Complaint> {
        match text {
            "programme" => Ok(Word::Programme),
            "account" => Ok(Word::Account),
            "month" => Ok(Word::Month),
            "capacity" => Ok(Word::Capacity),
            "reduction" => Ok(Word::Reduction),
            "hours" => Ok(Word::Hours),
            "event" => Ok(Word::Event),
            _ => Err(Complaint::UnknownWord),
        }
    }
}

impl Word {
    pub fn text(self) -> &'static str
        ensures { result.now ≡ spelling self }
    {
        match self {
            Word::Programme => "programme",
            Word::Account => "account",
            Word::Month => "month",
            Word::Capacity => "capacity",
            Word::Reduction => "reduction",
            Word::Hours => "hours",
            Word::Event => "event",
        }
    }
}

impl fmt::Display for Word {
    ghost output = { λ word. Some (spelling word) };

    fn fmt<W: fmt::Write>(&self, f: &mut fmt::Formatter<W>) -> fmt::Result {
        f.write_str(self.text())
    }
}
