// How many decimals a number may have, and why a text is no such number.

// The digits after the point. With two places a number is counted in hundredths, and 6.25 is 625.
#[derive(Clone, Copy, PartialEq, Eq, Debug)]
pub enum Places {
    Zero,
    Two,
    Three,
}

#[derive(Clone, Copy, PartialEq, Eq, Debug)]
pub enum Misread {
    Empty,
    // neither digits nor digits, a point and digits
    NotANumber,
    // more than 15 digits
    TooManyDigits,
    // more digits after the point than there are places
    TooManyDecimals,
}
