// Writing numbers for people.

ghost use Rattle.std.specs.Prelude.{ℕ, ◌*◌, ◌^◌, ◌<◌, Some};
ghost use Rattle.std.specs.Fmt.{WritesOnOk};
ghost use Rattle.decimals.specs.Written.{grouped, groups, with_decimals};

use crate::kinds::Places;
use std::fmt;

// A number with a point before its last places: 600 with two places is 6.00.
#[derive(Clone, Copy, PartialEq, Eq, Debug)]
pub struct Fixed {
    pub value: u64,
    pub places: Places,
}

#[tactic(auto, using(crate::proofs::Padding::padded_two, crate::proofs::Padding::padded_three))]
impl fmt::Display for Fixed {
    ghost output = { λ x. Some (with_decimals x.places x.value) };

    fn fmt<W: fmt::Write>(&self, f: &mut fmt::Formatter<W>) -> fmt::Result {
        let n = self.value;
        match self.places {
            Places::Zero => write!(f, "{n}"),
            Places::Two => write!(f, "{}.{:02}", n / 100, n % 100),
            Places::Three => write!(f, "{}.{:03}", n / 1000, n % 1000),
        }
    }
}

// Writes a number with a comma before each three digits but the first.
fn write_groups<W: fmt::Write>(n: u64, f: &mut fmt::Formatter<W>) -> fmt::Result
    ensures parts { (k : ℕ) → n < 1000 * 1000 ^ k → WritesOnOk W.write_str_gives f.old result (groups k n) f.new }
    ensures whole { WritesOnOk W.write_str_gives f.old result (grouped n) f.new }
{
    if n < 1000 {
        return write!(f, "{n}");
    }
    write_groups(n / 1000, f)?;
    write!(f, ",{:03}", n % 1000)
}

// A number with thousands separators: 65,109.
#[derive(Clone, Copy, PartialEq, Eq, Debug)]
pub struct Grouped(pub u64);

impl fmt::Display for Grouped {
    ghost output = { λ x. Some (grouped x.0) };

    fn fmt<W: fmt::Write>(&self, f: &mut fmt::Formatter<W>) -> fmt::Result {
        write_groups(self.0, f)
    }
}
