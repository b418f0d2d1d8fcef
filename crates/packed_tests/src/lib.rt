// A small packed file, read, walked through and spoilt.

#![tactic(auto)]

#[cfg(test)]
mod read;
#[cfg(test)]
mod refused;
#[cfg(test)]
mod samples;
