// The programmes that can be named by a letter.

#[derive(Clone, Copy, PartialEq, Eq, Debug)]
pub enum Code {
    Economic,
    JointBidding,
    Reliable,
}

// What stands for no programme.
#[derive(Clone, Copy, PartialEq, Eq, Debug)]
pub struct UnknownProgramme;
