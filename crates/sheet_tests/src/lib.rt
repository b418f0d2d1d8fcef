// Tests of sheets: what is accepted and paid, and what is refused with which words.

#![tactic(auto)]

#[cfg(test)]
mod amounts;
#[cfg(test)]
mod events;
#[cfg(test)]
mod headers;
#[cfg(test)]
mod numbers;
#[cfg(test)]
mod samples;
